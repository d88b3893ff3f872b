// `write` (src/scheme/user.rs, lines 743 to 755): completions, entry after entry up to the first refusal.
#![tactic(auto)]

ghost use Rattle.std.specs.Prelude.{◌≡◌, ◌<◌, ◌≤◌, true, length, IfSome};
ghost use Rattle.schemev2.specs.Entry.{cqe_of};
ghost use Rattle.events.specs.Outcome.{said};
ghost use Rattle.events.specs.Complete.{stopped};
ghost use Rattle.answer.specs.Numbered.{refusal_number};
ghost use Rattle.plan.specs.Plans.{number_by};
ghost use Rattle.write.specs.Writing.{is_refusal, Enters, Writes};

use answer::{Accepted, Answer, Refusal};
use ids::Tag;
use schemev2::{Cqe, ExtraRaw};

// The entry at the start of at least sixteen bytes: as `decode::cqe`, with no test of the length.
fn cqe_at(s: &[u8]) -> Cqe
    requires { 16 ≤ length s.now }
    ensures { result ≡ cqe_of s.now }
{
    let low = le::weigh4(s[8], s[9], s[10], s[11]);
    let high = le::weigh4(s[12], s[13], s[14], s[15]);
    let raw = ExtraRaw(s[1], s[2], s[3]);
    Cqe {
        flags: s[0],
        extra_raw: raw,
        tag: le::weigh4(s[4], s[5], s[6], s[7]),
        result: le::weigh2(low, high),
    }
}

// Why an entry is refused, if it is; so many words of effects.
#[derive(Clone, Copy)]
struct Entered {
    refusal: Option<Refusal>,
    words: usize,
}

// One entry, on the slot that its tag names.
fn entry(s: &mut [u64; 2060], e: Cqe, fx: &mut [u64], at: usize) -> Entered
    ensures enters { Enters s.old s.new fx.old fx.new at e (number_by result.refusal) result.words }
    ensures refused { IfSome result.refusal (λ r. is_refusal (refusal_number r) ≡ true) }
    ensures words_bound { result.words ≤ 102 }
{
    let asked = parse_cqe::parse_cqe(e);
    let n = ids::slot_of(Tag(e.tag as u64));
    let v = slot_load::load(s, n);
    let k = wish::handle_in(asked);
    let held = handle_words::held_at(s, k);
    let p = plan::handle_parsed(asked, v, held);
    let j = carry_out::carry_out(s, p, fx, at);
    carry_out::act_on(s, n, p);
    Entered {
        refusal: p.refusal,
        words: j,
    }
}

// A refusal after a good entry returns the bytes so far, a first one its number.
fn stop(done: usize, refusal: Refusal) -> Answer
    requires { done < 0x800_0000_0000_0000 }
    ensures { said result ≡ stopped done (refusal_number refusal) }
{
    if 0 < done {
        return Ok(Accepted::Bytes(16 * done as u64));
    }
    Err(refusal)
}

// So many of the lent words hold effects, three to each.
#[derive(Clone, Copy)]
pub struct Written {
    pub answer: Answer,
    pub words: usize,
}

pub fn write(s: &mut [u64; 2060], fx: &mut [u64], bytes: &[u8]) -> Written
    ensures { Writes s.old s.new fx.old fx.new bytes.now (said result.answer) result.words }
{
    let n = bytes.len() / 16;
    if fx.len() / 54 < n {
        return Written {
            answer: Err(Refusal::ShortWords),
            words: 0,
        };
    }
    let mut words = 0;
    for i in 0..n {
        let e = cqe_at(&bytes[16 * i..]);
        let done = entry(s, e, fx, words);
        words += done.words;
        if let Some(refusal) = done.refusal {
            return Written {
                answer: stop(i, refusal),
                words,
            };
        }
    }
    Written {
        answer: Ok(Accepted::Bytes(16 * n as u64)),
        words,
    }
}
