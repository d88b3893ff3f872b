// A completion entry as a plan on the slot that its tag names and on what its handle holds (`handle_parsed` and `respond`,
// src/scheme/user.rs, lines 792 to 848 and 920 to 1008): nothing is done yet.
#![tactic(auto)]

ghost use Rattle.std.specs.Prelude.{◌≡◌, true, ℕ, suc, ◌&&◌, leb, eqb};
ghost use Rattle.answer.specs.Numbered.{refusal_number};
ghost use Rattle.events.specs.Entry.{refused_of, one, respond_of, by_descriptor, obtain_entry_of, decision_of};
ghost use Rattle.reply_parts.specs.Parts.{offered};
ghost use Rattle.wish.specs.Wishes.{handle_in};
ghost use Rattle.plan.specs.Plans.{Holding, replied_of, nothing_of, is_first_effect, Plans};

use answer::Refusal;
use closes::Reason;
use effect::{Effect, EffectWords};
use fd_list::List;
use ids::Handle;
use parse_cqe::{CqeError, ParsedCqe};
use reply_parts::Offer;
use slot::{Act, PageSpan, Phase, Slot};
use wish::Wish;

// A handle that changes, and what it holds then: 0, or a description and 1.
#[derive(Clone, Copy)]
pub struct Change {
    pub handle: Handle,
    pub held: u64,
}

// Why the entry is refused, if it is; what becomes of the slot, and the one to store; a wake or an event, or none; the span to unmap;
// the list that is dropped, whose closes follow; the reply's own, dropped after it, and whether closes follow; the handle that
// changes, if one does.
#[derive(Clone, Copy)]
pub struct Plan {
    pub refusal: Option<Refusal>,
    pub act: Act,
    pub slot: Slot,
    pub first: EffectWords,
    pub span: PageSpan,
    pub gone: List,
    pub own: List,
    pub closing: bool,
    pub change: Option<Change>,
}

// Accepted, and nothing changes.
fn nothing(v: Slot) -> Plan
    ensures { result ≡ nothing_of v }
{
    let none = fd_list::empty();
    Plan {
        refusal: None,
        act: Act::Leave,
        slot: v,
        first: effect::words(None),
        span: PageSpan { base: 0, count: 0 },
        gone: none,
        own: none,
        closing: false,
        change: None,
    }
}

// Nothing changes.
fn refused(v: Slot, refusal: Refusal) -> Plan
    ensures plans { (k x : ℕ) → Plans result k x (λ h n. refused_of v h n (refusal_number refusal)) }
    ensures first { is_first_effect result.first ≡ true }
{
    Plan {
        refusal: Some(refusal),
        ..nothing(v)
    }
}

// `respond`, by the slot's phase.
fn respond(v: Slot, tag: u64, offer: Offer) -> Plan
    ensures plans { (k x : ℕ) → Plans result k x (λ h n. respond_of v tag (offered offer) h n) }
    ensures first { is_first_effect result.first ≡ true }
{
    match slot::phase_of(v) {
        Phase::Vacant => refused(v, Refusal::BadDescriptor),
        Phase::Placeholder => refused(v, Refusal::BadDescriptor),
        Phase::Responded => refused(v, Refusal::Invalid),
        Phase::Fmap => refused(v, Refusal::Invalid),
        Phase::Waiting => {
            let q = reply_parts::taken_apart(v, offer);
            if v.ended {
                return Plan {
                    act: Act::Vacate,
                    span: v.span,
                    gone: q.gone,
                    own: q.own,
                    closing: closes::is_closing(Reason::Ended),
                    ..nothing(slot::vacant())
                };
            }
            let reply = q.reply;
            Plan {
                act: Act::Store,
                first: effect::words(Some(Effect::Wake {
                    caller: v.caller,
                    tag,
                })),
                span: v.span,
                gone: q.gone,
                ..nothing(slot::responded(v, reply, q.kept))
            }
        }
    }
}

// What responding came to, with the description out of handle `fd`: it is emptied, whatever the tag says; refused by its tag, the
// hold is dropped.
fn from_handle(r: Plan, v: Slot, fd: Handle, word: u64) -> Plan
    ensures plans { (t x : ℕ) → x ≡ suc word → ((j y : ℕ) → Plans r j y (λ h n. respond_of v t (one word) h n)) → Plans result fd.0 x (λ h n. by_descriptor v t fd.0 h n) }
    ensures first { is_first_effect r.first ≡ true → is_first_effect result.first ≡ true }
{
    let empty = Some(Change {
        handle: fd,
        held: 0,
    });
    match r.refusal {
        None => Plan { change: empty, ..r },
        Some(refusal) => Plan {
            refusal: Some(refusal),
            own: reply_parts::one_or_none(word),
            closing: closes::is_closing(Reason::Refused),
            change: empty,
            ..nothing(v)
        },
    }
}

// A reply of any kind.
fn reply(v: Slot, tag: u64, offer: Offer, fd: Handle) -> Plan
    ensures plans { (x : ℕ) → Holding offer x → Plans result fd.0 x (λ h n. replied_of offer v tag fd.0 h n) }
    ensures first { is_first_effect result.first ≡ true }
{
    let r = respond(v, tag, offer);
    match offer {
        Offer::Fd(word) => from_handle(r, v, fd, word),
        Offer::Regular(..) => r,
        Offer::Listed => r,
    }
}

// One of the 64 handles, and empty.
fn is_free(fd: Handle, held: u64) -> bool
    ensures { result ≡ leb fd.0 63 && eqb held 0 }
{
    fd.0 <= 63 && held == 0
}

// The first of a waiting call's list goes into handle `fd`; where that is full or over 63, its hold is dropped.
fn obtain(v: Slot, fd: Handle, held: u64) -> Plan
    ensures plans { Plans result fd.0 held (λ h n. obtain_entry_of v fd.0 h n) }
    ensures first { is_first_effect result.first ≡ true }
{
    match slot::phase_of(v) {
        Phase::Vacant => refused(v, Refusal::Invalid),
        Phase::Placeholder => refused(v, Refusal::NotFound),
        Phase::Responded => refused(v, Refusal::NotFound),
        Phase::Fmap => refused(v, Refusal::NotFound),
        Phase::Waiting => {
            let fds = v.fds;
            if fd_list::size(fds) == 0 {
                return refused(v, Refusal::NotFound);
            }
            let d = fd_list::pick(fds, 0);
            let stored = Plan {
                act: Act::Store,
                ..nothing(slot::with_fds(v, fd_list::rest(fds)))
            };
            if is_free(fd, held) {
                return Plan {
                    change: Some(Change {
                        handle: fd,
                        held: d.0 as u64 + 1,
                    }),
                    ..stored
                };
            }
            Plan {
                own: fd_list::single(d),
                closing: closes::is_closing(Reason::Unusable),
                ..stored
            }
        }
    }
}

// `handle_parsed`: v stands at the entry's tag, and the handle that it names holds `held`.
pub fn handle_parsed(p: Result<ParsedCqe, CqeError>, v: Slot, held: u64) -> Plan
    ensures plans { Plans result (handle_in p) held (λ h n. decision_of p v h n) }
    ensures first { is_first_effect result.first ≡ true }
{
    let fd = wish::handle_in(p);
    match wish::wished(p, held) {
        Some(Wish::Event(number, flags)) => Plan {
            first: effect::words(Some(Effect::Event { number, flags })),
            ..nothing(v)
        },
        Some(Wish::Reply(tag, offer)) => reply(v, tag, offer, fd),
        Some(Wish::Obtain) => obtain(v, fd, held),
        None => refused(v, Refusal::Invalid),
    }
}

#[cfg(test)]
mod tests {
    use super::*;
    use ids::Tag;

    // A reply wakes its call's caller, an event entry is told as an event, and what is refused tells nothing.
    #[test]
    fn first_effect(rt: HostRuntime) {
        let call = slot::waiting(100, fd_list::empty());
        let reply = Ok(ParsedCqe::RegularResponse {
            tag: Tag(5),
            res: Ok(0),
            extra0: 0,
        });
        let event = Ok(ParsedCqe::TriggerFevent {
            number: 7,
            flags: 2,
        });
        for (entry, want) in [
            (reply, [1, 100, 5]),
            (event, [4, 7, 2]),
            (Err(CqeError::UnknownKind), [0, 0, 0]),
        ] {
            let first = handle_parsed(entry, call, 0).first;
            assert_eq!(rt; [first.kind, first.a, first.b], want);
        }
    }
}
