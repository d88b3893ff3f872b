// The queue of submission entries (src/sync/wait_queue.rs): 128 entries, first in, first out, in a ring of words that
// the caller lends, eight words to an entry.
#![tactic(auto)]

use answer::Answer;

// The place of the oldest entry and how many are unread.
#[repr(C)]
#[derive(Clone, Copy)]
pub struct WaitQueue {
    pub first: u64,
    pub len: u64,
}

// What a send or a read answers, and the queue that it leaves.
#[derive(Clone, Copy)]
pub struct QueueLeft {
    pub answer: Answer,
    pub queue: WaitQueue,
}
