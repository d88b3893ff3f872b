// Reading the queue of submission entries: what `receive_into_user` (src/sync/wait_queue.rs, lines 28 to 73) answers and
// leaves. The bytes are copied where the words stand, in crate queue_words.
#![tactic(auto)]

ghost use Rattle.std.specs.Prelude.{◌≡◌, min, ◌*◌};
ghost use Rattle.wait_queue_receive.specs.Receive.{empty_of, received_of};

use answer::{Accepted, Answer, Refusal};
use wait_queue::{QueueLeft, WaitQueue};

// What an empty queue answers: only bit 0x00040000 of the flags counts (O_NONBLOCK, syscall/src/flag.rs, line 189).
fn empty(room: usize, flags: u32) -> Answer
    ensures { result ≡ empty_of room flags }
{
    if flags / 0x4_0000 % 2 == 0 {
        return Ok(Accepted::WouldWait);
    }
    if room == 0 {
        return Ok(Accepted::Bytes(0));
    }
    if room < 64 {
        return Err(Refusal::Invalid);
    }
    Err(Refusal::Again)
}

// How many bytes of so many entries are copied into so much room. The product is made only where it fits.
pub fn copied(room: usize, len: u64) -> usize
    ensures { result ≡ min room (len * 64) }
{
    if ((room / 64) as u64) < len {
        return room;
    }
    len as usize * 64
}

// Whole entries that are copied are removed, a part entry comes again.
pub fn decide(q: WaitQueue, room: usize, flags: u32) -> QueueLeft
    ensures { result ≡ received_of q room flags }
{
    let len = q.len;
    if len == 0 {
        return QueueLeft {
            answer: empty(room, flags),
            queue: q,
        };
    }
    let n = copied(room, len);
    let gone = (n / 64) as u64;
    QueueLeft {
        answer: Ok(Accepted::Bytes(n as u64)),
        queue: WaitQueue {
            first: (q.first % 128 + gone) % 128,
            len: len - gone,
        },
    }
}
