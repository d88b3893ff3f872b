// Whole parts of the words, read and stored: chain, counts, handles, the queue's words (for the way between the two layouts).
#![tactic(auto)]

ghost use Rattle.std.specs.Prelude.{◌≡◌, [], ◌∷◌, ◌≤◌, ◌+◌, length, replicate};
ghost use Rattle.std.proofs.lemmas.List.Edits.{sets};
ghost use Rattle.events.specs.World.{table_of, holds_of, handles_of};
ghost use Rattle.layout.specs.Layout.{chain_place, head_place, scheme_place, queue_place, part as part_of, plain_of};
ghost use Rattle.layout.specs.Store.{stored, outside as outsideStore, all as allStore, handles as handlesStore};

// Words into others, from place `at` on. Not by `copy_from_slice`, of which a memmove stays in the library where both are lent: a host
// brings memcpy and memset alone.
fn copy(to: &mut [u64], at: usize, from: &[u64])
    requires { at + length from.now ≤ length to.old }
    ensures { to.new ≡ sets to.old at from.now }
{
    for (i, w) in from.iter().enumerate() {
        to[at + i] = *w;
    }
}

// The 64 words from `at` on.
#[tactic(auto, unfolding(layout::specs::Layout::part))]
fn part_at(s: &[u64; 2060], at: usize) -> [u64; 64]
    requires { at + 64 ≤ 2060 }
    ensures { result ≡ part_of at 64 s.now }
{
    *s[at..].first_chunk().unwrap()
}

// The slot after each in the chain; all counts of holds, those of outside ones; all handles.
#[tactic(auto, unfolding(layout::specs::Layout::plain_of))]
pub fn chain(s: &[u64; 2060]) -> [u64; 64]
    ensures { result ≡ (table_of (plain_of s.now)).next }
{
    part_at(s, layout::CHAIN)
}

#[tactic(auto, unfolding(layout::specs::Layout::plain_of))]
pub fn all(s: &[u64; 2060]) -> [u64; 64]
    ensures { result ≡ (holds_of (plain_of s.now)).holds }
{
    part_at(s, layout::ALL)
}

#[tactic(auto, unfolding(layout::specs::Layout::plain_of))]
pub fn outside(s: &[u64; 2060]) -> [u64; 64]
    ensures { result ≡ (holds_of (plain_of s.now)).outside }
{
    part_at(s, layout::OUTSIDE)
}

#[tactic(auto, unfolding(layout::specs::Layout::plain_of))]
pub fn handles(s: &[u64; 2060]) -> [u64; 64]
    ensures { result ≡ (handles_of (plain_of s.now)).at }
{
    part_at(s, layout::HANDLES)
}

// The queue's words, copied out.
pub fn queue(s: &[u64; 2060], to: &mut [u64; 1024])
    ensures { to.new ≡ (plain_of s.now).words }
{
    copy(to, 0, &s[layout::QUEUE..]);
}

// And each of them stored; words that have no meaning become 0.
pub fn put_chain(s: &mut [u64; 2060], next: &[u64; 64])
    ensures { s.new ≡ sets s.old (chain_place 0) next.now }
{
    copy(s, layout::CHAIN, next);
}

pub fn put_head(s: &mut [u64; 2060], n: u64)
    ensures { s.new ≡ sets s.old head_place (n ∷ replicate 7 0) }
{
    let a = [n, 0, 0, 0, 0, 0, 0, 0];
    copy(s, layout::HEAD, &a);
}

pub fn put_all(s: &mut [u64; 2060], counts: &[u64; 64])
    ensures { s.new ≡ stored s.old (allStore counts.now) }
{
    copy(s, layout::ALL, counts);
}

pub fn put_outside(s: &mut [u64; 2060], counts: &[u64; 64])
    ensures { s.new ≡ stored s.old (outsideStore counts.now) }
{
    copy(s, layout::OUTSIDE, counts);
}

pub fn put_driver(s: &mut [u64; 2060], scheme: u64, first: u64, len: u64)
    ensures { s.new ≡ sets s.old scheme_place (scheme ∷ first ∷ len ∷ 0 ∷ []) }
{
    let a = [scheme, first, len, 0];
    copy(s, layout::SCHEME, &a);
}

pub fn put_handles(s: &mut [u64; 2060], at: &[u64; 64])
    ensures { s.new ≡ stored s.old (handlesStore at.now) }
{
    copy(s, layout::HANDLES, at);
}

// Beside what it stores: both have as many words as their types say.
pub fn put_queue(s: &mut [u64; 2060], from: &[u64; 1024])
    ensures s_after { s.new ≡ sets s.old (queue_place 0) from.now }
    ensures s_len { (length s.old ≡ 2060) × (length from.now ≡ 1024) }
{
    copy(s, layout::QUEUE, from);
}
