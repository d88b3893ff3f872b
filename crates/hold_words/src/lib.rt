// Hold counts among the words: all holds of a description and the outside ones; a list looked at, taken, given back, dropped.
#![tactic(auto)]

ghost use Rattle.std.specs.Prelude.{◌≡◌, cond, ◌≤◌, length, get_or};
ghost use Rattle.std.proofs.lemmas.List.Edits.{sets};
ghost use Rattle.closes.specs.Closes.{only, closes};
ghost use Rattle.counts.specs.Counts.{less, more, less_all, more_all, lasts};
ghost use Rattle.fd_list.specs.Lists.{numbers};
ghost use Rattle.holds.specs.Holds.{held_of};
ghost use Rattle.take_holds.specs.Take.{take_of, listed_of, refusal_of};
ghost use Rattle.events.specs.World.{holds_of};
ghost use Rattle.layout.specs.Layout.{all_place, outside_place, plain_of};
ghost use Rattle.layout.specs.Store.{stored, outside as outsideStore, all as allStore};
ghost use Rattle.hold_words.specs.Counts.{counts_of, counts_store};

use answer::Refusal;
use fd_list::List;
use ids::Description;

// A list against the counts: the list, or what it is refused for; nothing is taken yet.
pub fn look(s: &[u64; 2060], fds: &[u64]) -> Result<List, Refusal>
    ensures { result ≡ (take_of (holds_of (plain_of s.now)) fds.now).list }
{
    let all = &s[layout::ALL..layout::OUTSIDE];
    let out = &s[layout::OUTSIDE..layout::SCHEME];
    take_holds::look(all, out, fds)
}

// The two apart: the list where it can be taken, and what it is refused for where it cannot.
pub fn listed(s: &[u64; 2060], fds: &[u64]) -> Option<List>
    ensures { result ≡ listed_of (take_of (holds_of (plain_of s.now)) fds.now).list }
{
    let all = &s[layout::ALL..layout::OUTSIDE];
    let out = &s[layout::OUTSIDE..layout::SCHEME];
    take_holds::listed(all, out, fds)
}

pub fn refused(s: &[u64; 2060], fds: &[u64]) -> Refusal
    ensures { result ≡ refusal_of (holds_of (plain_of s.now)) fds.now }
{
    let all = &s[layout::ALL..layout::OUTSIDE];
    let out = &s[layout::OUTSIDE..layout::SCHEME];
    take_holds::refused(all, out, fds)
}

// The description that a word names, if it is open and has an outside hold.
pub fn held(s: &[u64; 2060], word: u64) -> Option<Description>
    ensures { result ≡ held_of (holds_of (plain_of s.now)).holds (holds_of (plain_of s.now)).outside word }
{
    let all = &s[layout::ALL..layout::OUTSIDE];
    let out = &s[layout::OUTSIDE..layout::SCHEME];
    holds::held_outside(all, out, word)
}

// How many holds a description has.
pub fn holds_of(s: &[u64; 2060], d: Description) -> u64
    ensures { result ≡ get_or (holds_of (plain_of s.now)).holds d.0 0 }
{
    let all = &s[layout::ALL..layout::OUTSIDE];
    counts::count_at(all, d)
}

// Where the counts of outside holds begin, or those of all.
fn counts_at(outer: bool) -> usize
    ensures value { result ≡ cond outer (outside_place 0) (all_place 0) }
    ensures upper_bound { result ≤ 904 }
{
    if outer {
        return layout::OUTSIDE;
    }
    layout::ALL
}

// Each of these changes the counts of outside holds, or those of all.
fn lower_in(s: &mut [u64; 2060], outer: bool, d: Description)
    ensures { s.new ≡ stored s.old (counts_store outer (less (counts_of outer (plain_of s.old)) d.0)) }
{
    let at = counts_at(outer);
    counts::lower(&mut s[at..at + 64], d);
}

fn raise_in(s: &mut [u64; 2060], outer: bool, d: Description)
    ensures { s.new ≡ stored s.old (counts_store outer (more (counts_of outer (plain_of s.old)) d.0)) }
{
    let at = counts_at(outer);
    counts::higher(&mut s[at..at + 64], d);
}

// A list's holds leave the outside ones.
pub fn take(s: &mut [u64; 2060], l: List)
    ensures { s.new ≡ stored s.old (outsideStore (less_all (holds_of (plain_of s.old)).outside (numbers l))) }
{
    counts::lower_all(&mut s[layout::OUTSIDE..layout::SCHEME], l);
}

// A list's holds become outside holds.
pub fn to_outside(s: &mut [u64; 2060], l: List)
    ensures { s.new ≡ stored s.old (outsideStore (more_all (holds_of (plain_of s.old)).outside (numbers l))) }
{
    counts::raise_all(&mut s[layout::OUTSIDE..layout::SCHEME], l);
}

// A list's holds dropped, the closes that follow stored in the lent words from `at` on; says how many closes these are.
pub fn drop_all(s: &mut [u64; 2060], l: List, follows: bool, fx: &mut [u64], at: usize) -> usize
    ensures value { result ≡ length (only follows (lasts (holds_of (plain_of s.old)).holds (numbers l))) }
    ensures s_after { s.new ≡ stored s.old (allStore (less_all (holds_of (plain_of s.old)).holds (numbers l))) }
    ensures fx_after { fx.new ≡ sets fx.old at (closes (only follows (lasts (holds_of (plain_of s.old)).holds (numbers l)))) }
    ensures upper_bound { result ≤ 16 }
{
    closes::drop_all(&mut s[layout::ALL..layout::OUTSIDE], l, follows, fx, at)
}

// A list's holds dropped, with no close.
pub fn discard(s: &mut [u64; 2060], l: List)
    ensures { s.new ≡ stored s.old (allStore (less_all (holds_of (plain_of s.old)).holds (numbers l))) }
{
    let mut none = [0; 1];
    drop_all(s, l, false, &mut none, 0);
}

// One outside hold less.
pub fn lower_outside(s: &mut [u64; 2060], d: Description)
    ensures { s.new ≡ stored s.old (outsideStore (less (holds_of (plain_of s.old)).outside d.0)) }
{
    lower_in(s, true, d);
}

// One hold less of all.
pub fn lower(s: &mut [u64; 2060], d: Description)
    ensures { s.new ≡ stored s.old (allStore (less (holds_of (plain_of s.old)).holds d.0)) }
{
    lower_in(s, false, d);
}

// One outside hold more.
pub fn raise_outside(s: &mut [u64; 2060], d: Description)
    ensures { s.new ≡ stored s.old (outsideStore (more (holds_of (plain_of s.old)).outside d.0)) }
{
    raise_in(s, true, d);
}

// One hold more of all.
pub fn raise(s: &mut [u64; 2060], d: Description)
    ensures { s.new ≡ stored s.old (allStore (more (holds_of (plain_of s.old)).holds d.0)) }
{
    raise_in(s, false, d);
}
