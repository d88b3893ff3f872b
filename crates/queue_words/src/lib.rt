// The driver's scheme number and its queue among the words: one entry more, and the oldest bytes read where they stand.
#![tactic(auto)]

ghost use Rattle.std.specs.Prelude.{◌≡◌, min, ◌+◌, ◌*◌, ◌%◌, ◌≤◌, length, take};
ghost use Rattle.std.proofs.lemmas.List.Edits.{sets};
ghost use Rattle.schemev2.specs.Entry.{sqe_words};
ghost use Rattle.le.specs.Le.{bytes8, bytes_of};
ghost use Rattle.wait_queue.specs.Queue.{head_of, unread as unreadOf};
ghost use Rattle.wait_queue_receive.specs.Receive.{received_of, copied_of};
ghost use Rattle.events.specs.World.{queue_of, scheme_of, queue_full};
ghost use Rattle.layout.specs.Layout.{plain_of};
ghost use Rattle.layout.specs.Store.{stored, send as sendStore, queue as queueStore};

use schemev2::Sqe;
use wait_queue::{QueueLeft, WaitQueue};

#[tactic(auto, unfolding(layout::specs::Layout::plain_of))]
pub fn scheme(s: &[u64; 2060]) -> u64
    ensures { result ≡ scheme_of (plain_of s.now) }
{
    s[layout::SCHEME]
}

// Where the oldest entry stands, and how many are unread.
#[tactic(auto, unfolding(layout::specs::Layout::plain_of))]
pub fn first(s: &[u64; 2060]) -> u64
    ensures { result ≡ (queue_of (plain_of s.now)).first }
{
    s[layout::FIRST]
}

#[tactic(auto, unfolding(layout::specs::Layout::plain_of))]
pub fn unread(s: &[u64; 2060]) -> u64
    ensures { result ≡ (queue_of (plain_of s.now)).len }
{
    s[layout::UNREAD]
}

// 128 entries are unread.
#[tactic(auto, unfolding(layout::specs::Layout::plain_of))]
pub fn queue_full(s: &[u64; 2060]) -> bool
    ensures { result ≡ queue_full (plain_of s.now) }
{
    128 <= s[layout::UNREAD]
}

// Opcode, flags, the reserved bytes and the tag as one word.
fn start(e: Sqe) -> u64
    ensures { result ≡ head_of e }
{
    u64::from(e.opcode) + u64::from(e.sqe_flags) * 0x100 + u64::from(e.tag) * 0x1_0000_0000
}

// An entry in the eight words from `at` on.
fn store_entry(s: &mut [u64; 2060], at: usize, e: Sqe)
    requires { at + 8 ≤ 2060 }
    ensures { s.new ≡ sets s.old at (sqe_words e) }
{
    let args = e.args;
    word_put::put4(s, at, start(e), args.0, args.1, args.2);
    word_put::put4(s, at + 4, args.3, args.4, args.5, e.caller);
}

// One entry more in the queue, where there is room.
pub fn send(s: &mut [u64; 2060], e: Sqe)
    ensures { s.new ≡ stored s.old (sendStore e) }
{
    let len = s[layout::UNREAD];
    if len < 128 {
        let place = ((s[layout::FIRST] % 128 + len) % 128 * 8) as usize;
        store_entry(s, layout::QUEUE + place, e);
        s[layout::UNREAD] = len + 1;
    }
}

// Words that stand one after the other. No test in the loop, so that it compiles to a copy of several words at a time.
fn copy_run(from: &[u64], out: &mut [u8], at: usize)
    requires { at + length from.now * 8 ≤ length out.old }
    ensures { out.new ≡ sets out.old at (bytes_of from.now) }
{
    for (j, w) in from.iter().enumerate() {
        let place = at + j * 8;
        out[place..place + 8].copy_from_slice(&w.to_le_bytes());
    }
}

// Where word number i of the unread ones stands in the ring.
fn place(first: u64, i: usize) -> usize
    ensures { result ≡ (first * 8 + i) % 1024 }
{
    ((first % 128) as usize * 8 + i % 1024) % 1024
}

// The first n of the unread bytes: straight runs, each up to the ring's end (at most two of a well-formed queue), then the
// part of a word that is left. A `while`: each turn goes on by its run's length, which no range or chunk of a slice has.
fn copy(q: WaitQueue, ring: &[u64], out: &mut [u8], n: usize)
    requires { (length ring.now ≡ 1024) × (n ≤ length out.old) × (n ≤ q.len * 64) }
    ensures { out.new ≡ sets out.old 0 (take n (unreadOf q ring.now)) }
{
    let mut i = 0;
    while i < n / 8 {
        let p = place(q.first, i);
        let k = (1024 - p).min(n / 8 - i);
        copy_run(&ring[p..p + k], out, i * 8);
        i += k;
    }
    let left = n - i * 8;
    if left != 0 {
        let last = ring[place(q.first, i)].to_le_bytes();
        out[i * 8..n].copy_from_slice(&last[..left]);
    }
}

// The oldest unread bytes into those lent; the queue that this leaves is answered and not yet stored.
#[tactic(auto, unfolding(layout::specs::Layout::plain_of, layout::specs::Layout::part))]
pub fn receive(s: &[u64; 2060], out: &mut [u8], flags: u32) -> QueueLeft
    ensures value { result ≡ received_of (queue_of (plain_of s.now)) (length out.old) flags }
    ensures out_after { out.new ≡ copied_of (queue_of (plain_of s.now)) (plain_of s.now).words out.old }
{
    let q = WaitQueue {
        first: s[layout::FIRST],
        len: s[layout::UNREAD],
    };
    let room = out.len();
    copy(
        q,
        &s[layout::QUEUE..],
        out,
        wait_queue_receive::copied(room, q.len),
    );
    wait_queue_receive::decide(q, room, flags)
}

pub fn put_unread(s: &mut [u64; 2060], q: WaitQueue)
    ensures { s.new ≡ stored s.old (queueStore q) }
{
    s[layout::FIRST] = q.first;
    s[layout::UNREAD] = q.len;
}
