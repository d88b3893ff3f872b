// Slots read from the words, and the first of the chain of vacated ones. No slot reads as vacant.
#![tactic(auto)]

ghost use Rattle.std.specs.Prelude.{◌≡◌, min, ◌≤◌, ◌+◌};
ghost use Rattle.events.specs.World.{table_of, slot_in};
ghost use Rattle.events.specs.Submit.{table_full};
ghost use Rattle.layout.specs.Layout.{slot_of, fds_from, plain_of};

use fd_list::List;
use ids::{SlotNo, Tag};
use slot::{PageSpan, Reply, Slot};

// The first vacant slot; none where all are occupied.
#[tactic(auto, unfolding(layout::specs::Layout::plain_of))]
pub fn head(s: &[u64; 2060]) -> SlotNo
    ensures { result.0 ≡ min (table_of (plain_of s.now)).head 64 }
{
    ids::slot_of(Tag(s[layout::HEAD]))
}

// The same, as it stands.
#[tactic(auto, unfolding(layout::specs::Layout::plain_of))]
pub fn head_word(s: &[u64; 2060]) -> u64
    ensures { result ≡ (table_of (plain_of s.now)).head }
{
    s[layout::HEAD]
}

// No slot is vacant.
#[tactic(auto, unfolding(layout::specs::Layout::plain_of))]
pub fn is_full(s: &[u64; 2060]) -> bool
    ensures { result ≡ table_full (plain_of s.now) }
{
    64 <= s[layout::HEAD]
}

fn list_of(low: u64, high: u64, n: u64) -> List
    ensures { result ≡ fds_from low high n }
{
    List {
        at: ids::descriptions_in(low, high),
        len: (n % 256) as u8,
    }
}

// The slot in the twelve words from `at` on.
#[tactic(auto, unfolding(layout::specs::Layout::slot_of))]
fn slot_at(s: &[u64; 2060], at: usize) -> Slot
    requires { at + 12 ≤ 2060 }
    ensures { result ≡ slot_of s.now at }
{
    let w = s[at];
    let r = s[at + 6];
    Slot {
        state: (w % 256) as u8,
        caller: (s[at + 1] % 4294967296) as u32,
        canceling: w / 256 % 2 == 1,
        ended: w / 512 % 2 == 1,
        returned: w / 1024 % 2 == 1,
        span: PageSpan {
            base: s[at + 4],
            count: s[at + 5],
        },
        reply: Reply {
            kind: (r % 256) as u8,
            extra0: (r / 256 % 256) as u8,
            notice: r / 65536 % 2 == 1,
            word: s[at + 7],
        },
        fds: list_of(s[at + 9], s[at + 10], s[at + 11]),
    }
}

// Slot n.
#[tactic(auto, using(layout::proofs::Worlds::load_is))]
pub fn load(s: &[u64; 2060], n: SlotNo) -> Slot
    ensures { result ≡ slot_in (plain_of s.now) n.0 }
{
    let i = n.0 as usize;
    if i < 64 {
        return slot_at(s, layout::SLOT * i);
    }
    slot::vacant()
}
