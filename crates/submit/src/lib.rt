// A reserved call is submitted: the start of `call_inner` (src/scheme/user.rs, lines 233 to 254). Opcode, flags, arguments
// and pid are taken as given.
#![tactic(auto)]

ghost use Rattle.std.specs.Prelude.{◌≡◌};
ghost use Rattle.step.specs.Does.{answer_of, effects_of, Does};
ghost use Rattle.events.specs.Submit.{submittable};
ghost use Rattle.events.specs.Event.{on, submit as submitEvent};

use answer::{Accepted, Refusal};
use ids::Tag;
use schemev2::{Args, Sqe};
use slot::{Phase, Slot};
use step::Step;

// Whether it is a Placeholder of this caller's, which has not ended.
fn is_submittable(v: Slot, caller: u32) -> bool
    ensures { result ≡ submittable v caller }
{
    slot::phase_of(v) == Phase::Placeholder && v.caller == caller && !v.ended
}

pub fn submit(
    s: &mut [u64; 2060],
    fds: &[u64],
    tag: Tag,
    caller: u32,
    opcode: u64,
    flags: u8,
    args: Args,
    pid: u64,
) -> Result<Step, Refusal>
    ensures { Does s.old s.new (on (submitEvent tag.0 caller opcode flags args pid fds.now)) (answer_of result) (effects_of result) }
{
    // lent anew: its pointer and length are then loaded apart, and not as one right after they were stored
    let asked = ask::ask(s, opcode, &fds[..])?;
    let n = ids::slot_of(tag);
    let v = slot_load::load(s, n);
    if !is_submittable(v, caller) {
        return Err(Refusal::NotYours);
    }
    if queue_words::queue_full(s) {
        return Err(Refusal::QueueFull);
    }
    let list = asked.list;
    let w = slot::waiting(caller, list);
    let e = Sqe {
        opcode: asked.opcode,
        sqe_flags: flags,
        tag: n.0 as u32,
        args,
        caller: pid,
    };
    hold_words::take(s, list);
    Ok(step::went_on(s, n, w, e, Accepted::Submitted(tag)))
}
