// `close` and `detach` (src/scheme/user.rs, lines 1641 and 1663): an entry of its own in the queue, with tag 0 and no slot.
#![tactic(auto)]

ghost use Rattle.std.specs.Prelude.{◌≡◌};
ghost use Rattle.opcode.specs.Opcodes.{raw_of};
ghost use Rattle.events.specs.Submit.{sqe};
ghost use Rattle.step.specs.Does.{answer_of, effects_of, Does};
ghost use Rattle.events.specs.Event.{on, close as closeEvent, detach as detachEvent};

use answer::Refusal;
use opcode::Opcode;
use schemev2::{Args, Sqe};
use step::Step;

// It names a number of the driver's own, and who asks.
fn entry(opcode: Opcode, id: u64, pid: u64) -> Sqe
    ensures { result ≡ sqe (raw_of opcode) 0 0 (record { 0 = id; 1 = 0; 2 = 0; 3 = 0; 4 = 0; 5 = 0 }) pid }
{
    Sqe {
        opcode: opcode.raw(),
        sqe_flags: 0,
        tag: 0,
        args: Args(id, 0, 0, 0, 0, 0),
        caller: pid,
    }
}

// READ and HUP, pid 0.
pub fn close(s: &mut [u64; 2060], id: u64) -> Result<Step, Refusal>
    ensures { Does s.old s.new (on (closeEvent id)) (answer_of result) (effects_of result) }
{
    if queue_words::queue_full(s) {
        return Err(Refusal::QueueFull);
    }
    let e = entry(Opcode::CloseMsg, id, 0);
    let read = flag::event_read();
    let hup = flag::event_hup();
    Ok(step::notified(s, e, read + hup))
}

pub fn detach(s: &mut [u64; 2060], id: u64, pid: u64) -> Result<Step, Refusal>
    ensures { Does s.old s.new (on (detachEvent id pid)) (answer_of result) (effects_of result) }
{
    if queue_words::queue_full(s) {
        return Err(Refusal::QueueFull);
    }
    let e = entry(Opcode::Detach, id, pid);
    Ok(step::notified(s, e, flag::event_read()))
}
