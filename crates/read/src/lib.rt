// `read` (src/scheme/user.rs, lines 727 to 741; 01, "Queue"): the driver reads its queue's unread bytes. It has no effects.
#![tactic(auto)]

ghost use Rattle.std.specs.Prelude.{◌≡◌, [], length};
ghost use Rattle.std.proofs.lemmas.List.Edits.{sets};
ghost use Rattle.events.specs.Outcome.{said};
ghost use Rattle.events.specs.Event.{step, on, read as readEvent};
ghost use Rattle.layout.specs.Layout.{plain_of};
ghost use Rattle.step.specs.Does.{Does};

use answer::Answer;

// Of the lent bytes those beyond the stored ones keep what they held.
pub fn read(s: &mut [u64; 2060], out: &mut [u8], flags: u32) -> Answer
    ensures does { Does s.old s.new (on (readEvent (length out.old) flags)) (said result) [] }
    ensures out_after { out.new ≡ sets out.old 0 (step (plain_of s.old) (on (readEvent (length out.old) flags))).bytes }
{
    let done = queue_words::receive(s, out, flags);
    let left = done.queue;
    queue_words::put_unread(s, left);
    done.answer
}
