// Slots stored in the words, given out and vacated. A store to no slot is nothing.
#![tactic(auto)]

ghost use Rattle.std.specs.Prelude.{◌≡◌, ◌≤◌, ◌+◌, map};
ghost use Rattle.le.specs.Le.{word};
ghost use Rattle.fd_list.specs.Lists.{num};
ghost use Rattle.layout.specs.Layout.{marks_word, reply_word};
ghost use Rattle.layout.specs.Store.{stored, put as putStore, give as giveStore, vacate as vacateStore};

use fd_list::List;
use ids::{SlotNo, Tag};
use slot::{Reply, Slot};

// Eight descriptions of a list as a word, from place k on.
fn list_word(l: List, k: usize) -> u64
    requires { k + 8 ≤ 16 }
    ensures { result ≡ word (map num l.at) k }
{
    let at = l.at;
    u64::from_le_bytes([
        at[k].0,
        at[k + 1].0,
        at[k + 2].0,
        at[k + 3].0,
        at[k + 4].0,
        at[k + 5].0,
        at[k + 6].0,
        at[k + 7].0,
    ])
}

fn marks_word(v: Slot) -> u64
    ensures { result ≡ marks_word v }
{
    u64::from(v.state)
        + u64::from(v.canceling) * 256
        + u64::from(v.ended) * 512
        + u64::from(v.returned) * 1024
}

fn reply_word(r: Reply) -> u64
    ensures { result ≡ reply_word r }
{
    u64::from(r.kind) + u64::from(r.extra0) * 256 + u64::from(r.notice) * 65536
}

// Slot n becomes v: its twelve words are stored, spare ones as 0.
#[tactic(auto, unfolding(layout::specs::Layout::low_word, layout::specs::Layout::high_word))]
pub fn put(s: &mut [u64; 2060], n: SlotNo, v: Slot)
    ensures { s.new ≡ stored s.old (putStore n.0 v) }
{
    let i = n.0 as usize;
    if i < 64 {
        let at = layout::SLOT * i;
        let marks = marks_word(v);
        let reply = reply_word(v.reply);
        let low = list_word(v.fds, 0);
        let high = list_word(v.fds, 8);
        word_put::put4(s, at, marks, v.caller as u64, 0, 0);
        word_put::put4(s, at + 4, v.span.base, v.span.count, reply, v.reply.word);
        word_put::put4(s, at + 8, 0, low, high, v.fds.len as u64);
    }
}

// The first of the chain becomes v and leaves it.
pub fn give(s: &mut [u64; 2060], v: Slot)
    ensures { s.new ≡ stored s.old (giveStore v) }
{
    let n = s[layout::HEAD];
    if n < 64 {
        let after = s[layout::CHAIN + n as usize];
        put(s, ids::slot_of(Tag(n)), v);
        s[layout::HEAD] = after;
    }
}

// Slot n is vacant, and first in the chain.
pub fn vacate(s: &mut [u64; 2060], n: SlotNo)
    ensures { s.new ≡ stored s.old (vacateStore n.0) }
{
    let i = n.0 as usize;
    if i < 64 {
        let v = slot::vacant();
        let first = s[layout::HEAD];
        put(s, n, v);
        s[layout::CHAIN + i] = first;
        s[layout::HEAD] = i as u64;
    }
}
