// The status words' names, and whether a slot counts in one.
#![tactic(auto)]

ghost use Rattle.std.specs.Prelude.{◌≡◌};
ghost use Rattle.status.specs.Status.{is_abandoned, is_in};

use slot::Slot;

// Outstanding: a call that somebody still waits for. Orphans: the other Waiting slots. An enum, and no test passed as a closure,
// since what is claimed of the words (definitions is_in and Parted) goes by it.
#[derive(Clone, Copy, Debug, PartialEq, Eq)]
pub enum Status {
    Placeholder,
    Outstanding,
    Responded,
    Fmap,
    Orphans,
}

// Its caller has ended or its call has returned.
fn is_abandoned(v: Slot) -> bool
    ensures { result ≡ is_abandoned v }
{
    v.ended || v.returned
}

// 1 where the slot counts in this word.
pub fn is_in(v: Slot, which: Status) -> u64
    ensures { result ≡ is_in which v }
{
    let is_waiting = v.state == 2;
    let counts = match which {
        Status::Placeholder => v.state == 1,
        Status::Outstanding => is_waiting && !is_abandoned(v),
        Status::Responded => v.state == 3,
        Status::Fmap => v.state == 4,
        Status::Orphans => is_waiting && is_abandoned(v),
    };
    u64::from(counts)
}
