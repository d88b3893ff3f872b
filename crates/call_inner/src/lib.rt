// One turn of `call_inner`'s loop, a wake (src/scheme/user.rs, lines 256 to 392).
#![tactic(auto)]

ghost use Rattle.std.specs.Prelude.{◌≡◌};
ghost use Rattle.events.specs.Wake.{response_of};
ghost use Rattle.events.specs.Event.{on, wake as wakeEvent};
ghost use Rattle.events.specs.World.{slot_in};
ghost use Rattle.layout.specs.Layout.{plain_of};
ghost use Rattle.step.specs.Does.{answer_with, effects_of, Does};
ghost use Rattle.call_inner.specs.Stored.{kept_in};

use answer::{Accepted, Refusal};
use fd_list::List;
use ids::Tag;
use slot::{PageSpan, Reply};
use step::Step;
use wake_decision::Turn;

// The reply in a tag's slot, with its list where it is one of many: what a wake hands over, to be looked at before it. The wake
// does not hand it back itself, since a struct that is stored to be taken apart again costs as much as the wake.
#[derive(Clone, Copy)]
pub struct Stored {
    pub reply: Reply,
    pub fds: List,
}

pub fn stored_reply(s: &[u64; 2060], tag: Tag) -> Stored
    ensures { result ≡ kept_in (slot_in (plain_of s.now) tag.0) }
{
    let v = slot_load::load(s, ids::slot_of(tag));
    let reply = v.reply;
    if reply.kind < 3 {
        let none = fd_list::empty();
        return Stored {
            reply: reply,
            fds: none,
        };
    }
    let fds = v.fds;
    Stored {
        reply: reply,
        fds: fds,
    }
}

// Inlined at both callers: what it returns would else be stored in parts and read back.
#[inline(always)]
pub fn wake(
    s: &mut [u64; 2060],
    tag: Tag,
    caller: u32,
    killed: u64,
    base: u64,
    count: u64,
) -> Result<Step, Refusal>
    ensures { Does s.old s.new (on (wakeEvent tag.0 caller killed base count)) (answer_with (response_of (slot_in (plain_of s.old) tag.0)) result) (effects_of result) }
{
    if 1 < killed {
        return Err(Refusal::BadArgument);
    }
    let n = ids::slot_of(tag);
    let v = slot_load::load(s, n);
    let unread = queue_words::unread(s);
    let decided = wake_decision::decide(v, caller, killed, unread);
    match decided.turn {
        Turn::Stay => Ok(step::answered(decided.answer?)),
        Turn::Interrupt => {
            let w = slot::interrupted(v, PageSpan { base, count });
            slot_store::put(s, n, w);
            Err(Refusal::Interrupted)
        }
        Turn::Cancel => {
            let w = slot::canceled(v);
            let e = wake_decision::cancel_entry(n);
            Ok(step::went_on(s, n, w, e, Accepted::Blocked))
        }
        Turn::HandOver => {
            let out = wake_decision::holds_in(v.reply, v.fds);
            hold_words::to_outside(s, out);
            slot_store::vacate(s, n);
            Ok(step::answered(Accepted::Replied))
        }
    }
}
