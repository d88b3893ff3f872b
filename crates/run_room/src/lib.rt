// Whether the output that a run is given has room for all that it may write, and where its events end: told from the records alone,
// before the first event.
#![tactic(auto)]

ghost use Rattle.std.specs.Prelude.{◌≡◌, ◌-◌, ◌≤◌, None, MatchOption, SomeIff};
ghost use Rattle.record.specs.Record.{record_of};
ghost use Rattle.run_room.specs.Room.{room_of, walked_of};

use record::EventKind;
use state_bytes::STATE_SIZE;

// The room that the bytes of the event at the start of a slice may take: a read's by its first word, a write's by its number. No other
// field is read.
fn room_at(s: &[u8]) -> usize
    ensures value { result ≡ room_of (record_of s.now) }
    ensures upper_bound { result ≤ 0x40_0000_0000 }
{
    let kind = le::byte(s, 0);
    let read = if kind == EventKind::Read as u8 {
        le::word(s, 16).min(8192) as usize
    } else {
        0
    };
    let tail = if kind == EventKind::Write as u8 {
        le::half(s, 4) as usize
    } else {
        0
    };
    192 + read + 27 * tail
}

// Whether what a run writes has room, and where its events end, whichever it is.
#[derive(Clone, Copy)]
pub struct Walked {
    pub fits: bool,
    pub end: usize,
}

// What is left of so much; nothing once there was too little.
fn spend(left: Option<usize>, needed: usize) -> Option<usize>
    ensures { MatchOption left (result ≡ None) (λ n. SomeIff result (needed ≤ n) (n - needed)) }
{
    left?.checked_sub(needed)
}

// Over all events once: what they write in so many bytes, and the first record that is none.
pub fn walk(events: &[u8], most: usize) -> Walked
    ensures { result ≡ walked_of events.now most }
{
    let mut left = most.checked_sub(STATE_SIZE);
    let mut at = 0;
    while let Some(size) = record_next::next(&events[at..]) {
        let needed = room_at(&events[at..]);
        left = spend(left, needed);
        at += size;
    }
    Walked {
        fits: left.is_some(),
        end: at,
    }
}
