// What a run writes of an event with at most one effect, a wake among them: its answer and effect, into bytes that are lent.
// What lies past the end is not stored.
#![tactic(auto)]

ghost use Rattle.std.specs.Prelude.{◌≡◌, [], ◌∷◌, ◌++◌, ◌≤◌, ◌+◌, ◌*◌, length};
ghost use Rattle.std.proofs.lemmas.List.Edits.{sets};
ghost use Rattle.fd_list.specs.Lists.{numbers};
ghost use Rattle.le.specs.Le.{bytes_of};
ghost use Rattle.effect.specs.Effect.{effect_words};
ghost use Rattle.events.specs.Outcome.{Response, reply as replied, said_with, said};
ghost use Rattle.step.specs.Does.{answer_of, answer_with, effects_of};
ghost use Rattle.events.specs.Wake.{response_from};
ghost use Rattle.outcome_bytes.specs.Output.{answer_words, told};

use answer::{Answer, Refusal};
use effect::Effect;
use fd_list::List;
use slot::Reply;
use step::Step;

fn put_fds(out: &mut [u8], at: usize, l: List)
    requires { at ≤ 0x4000_0000_0000_0000 }
    ensures { out.new ≡ sets out.old at (bytes_of (numbers l)) }
{
    for i in 0..fd_list::size(l) {
        le_put::put8(out, at + 8 * i, u64::from(fd_list::pick(l, i).0));
    }
}

// An effect's words behind their number; says how many bytes.
fn put_effect(out: &mut [u8], at: usize, e: Option<Effect>) -> usize
    requires { at ≤ 0x1_0000 }
    ensures out_after { out.new ≡ sets out.old at (bytes_of (length (effect_words e) ∷ effect_words e)) }
    ensures value { result ≡ length (bytes_of (length (effect_words e) ∷ effect_words e)) }
    ensures upper_bound { result ≤ 32 }
{
    match e {
        None => {
            le_put::put8(out, at, 0);
            8
        }
        Some(_) => {
            let w = effect::words(e);
            le_put::put_two(out, at, 3, w.kind);
            le_put::put_two(out, at + 16, w.a, w.b);
            32
        }
    }
}

// A reply's words from the first on; says how many bytes.
fn put_reply(out: &mut [u8], r: Reply, fds: List) -> usize
    ensures out_after { out.new ≡ sets out.old 0 (bytes_of (answer_words (replied (response_from r fds)))) }
    ensures value { result ≡ length (bytes_of (answer_words (replied (response_from r fds)))) }
    ensures upper_bound { result ≤ 144 }
{
    let kind = r.kind;
    if kind < 2 {
        le_put::put_two(out, 0, 4 + kind as u64, r.word);
        le_put::put_two(out, 16, r.extra0 as u64, u64::from(r.notice));
        return 32;
    }
    if kind == 2 {
        le_put::put_two(out, 0, 6, r.word);
        return 16;
    }
    let n = fd_list::size(fds);
    le_put::put_two(out, 0, 7, n as u64);
    put_fds(out, 16, fds);
    16 + 8 * n
}

// The effect, and that no byte was read; says where it ends.
fn put_rest(out: &mut [u8], at: usize, e: Option<Effect>) -> usize
    requires { at ≤ 0x1_0000 }
    ensures out_after { out.new ≡ sets out.old at (bytes_of (length (effect_words e) ∷ effect_words e) ++ bytes_of (0 ∷ [])) }
    ensures value { result ≡ at + length (bytes_of (length (effect_words e) ∷ effect_words e) ++ bytes_of (0 ∷ [])) }
    ensures upper_bound { result ≤ at + 40 }
{
    let k = put_effect(out, at, e);
    le_put::put8(out, at + k, 0);
    at + k + 8
}

// The answer of an event that hands nothing over; says how many bytes.
pub fn put_answer(out: &mut [u8], a: Answer) -> usize
    ensures out_after { out.new ≡ sets out.old 0 (bytes_of (answer_words (said a))) }
    ensures value { result ≡ length (bytes_of (answer_words (said a))) }
    ensures upper_bound { result ≤ 32 }
{
    let w = answer_words::words(a);
    le_put::put_two(out, 0, w.kind, w.value);
    if w.kind == 4 {
        le_put::put_two(out, 16, 0, 0);
        return 32;
    }
    16
}

// The answer of what an event's function returns, and its effect.
fn answer_in(done: Result<Step, Refusal>) -> Answer
    ensures { (r : Response) → said_with r result ≡ answer_with r done }
{
    done.map(|step| step.accepted)
}

fn effect_in(done: Result<Step, Refusal>) -> Option<Effect>
    ensures { effect_words result ≡ effects_of done }
{
    done.ok()?.effect
}

// An event with at most one effect.
pub fn put_step(out: &mut [u8], done: Result<Step, Refusal>) -> usize
    ensures out_after { out.new ≡ sets out.old 0 (told (answer_of done) (effects_of done) []) }
    ensures value { result ≡ length (told (answer_of done) (effects_of done) []) }
    ensures upper_bound { result ≤ 192 }
{
    let k = put_answer(out, answer_in(done));
    put_rest(out, k, effect_in(done))
}

// A wake: its reply, where one was handed over.
pub fn put_woken(out: &mut [u8], done: Result<Step, Refusal>, r: Reply, fds: List) -> usize
    ensures out_after { out.new ≡ sets out.old 0 (told (answer_with (response_from r fds) done) (effects_of done) []) }
    ensures value { result ≡ length (told (answer_with (response_from r fds) done) (effects_of done) []) }
    ensures upper_bound { result ≤ 192 }
{
    let e = effect_in(done);
    let w = answer_words::words(answer_in(done));
    if w.kind == 4 {
        let k = put_reply(out, r, fds);
        return put_rest(out, k, e);
    }
    le_put::put_two(out, 0, w.kind, w.value);
    put_rest(out, 16, e)
}
