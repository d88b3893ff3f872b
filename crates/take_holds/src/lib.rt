// A list of holds taken from the host's: one for each entry, all or nothing.
#![tactic(auto)]

ghost use Rattle.std.specs.Prelude.{◌≡◌, cond, ◌||◌, ltb, eqb, get_or};
ghost use Rattle.answer.specs.declared.Refusal.TheVariants.{BadArgument, TooManyFds};
ghost use Rattle.counts.specs.Counts.{times, less_all, any};
ghost use Rattle.holds.specs.Holds.{holds_with, held_of};
ghost use Rattle.take_holds.specs.Take.{bad_in, take_of, listed_of, refusal_of};

use answer::Refusal;
use fd_list::List;
use holds::Holds;
use ids::Description;

// What taking a list comes to: the list or why it is refused, and the holds that are left.
#[derive(Clone, Copy)]
pub struct Taken {
    pub list: Result<List, Refusal>,
    pub holds: Holds,
}

// How often a word stands among some. Counting a short list again is cheaper than a copy of the counts to lower.
fn mentions(words: &[u64], word: u64) -> u64
    ensures { result ≡ times word words.now }
{
    let mut n = 0;
    for w in words {
        if *w == word {
            n += 1;
        }
    }
    n
}

// How often a list may name a word: once for each outside hold of its description, which is to be open.
fn allowed(all: &[u64], outside: &[u64], word: u64) -> u64
    ensures { result ≡ cond (ltb 63 word || eqb (get_or all.now word 0) 0) 0 (get_or outside.now word 0) }
{
    match ids::description_of(word) {
        Some(d) if counts::count_at(all, d) != 0 => counts::count_at(outside, d),
        _ => 0,
    }
}

// The description that a word names, if it is open and has an outside hold that none of the words before it needs.
fn held_after(all: &[u64], outside: &[u64], before: &[u64], word: u64) -> Option<Description>
    ensures { result ≡ held_of all.now (less_all outside.now before.now) word }
{
    let needed = mentions(before, word);
    if allowed(all, outside, word) <= needed {
        return None;
    }
    ids::description_of(word)
}

// What a list too long to take is refused for. It may have millions of entries, so it is counted once for each description,
// and not once for each entry. An entry that no description counts is over 63.
fn long(all: &[u64], outside: &[u64], words: &[u64]) -> Refusal
    ensures { result ≡ cond (any (bad_in all.now outside.now words.now) words.now) BadArgument TooManyFds }
{
    let mut uncounted = words.len() as u64;
    for d in 0..64 {
        let n = mentions(words, d);
        if allowed(all, outside, d) < n {
            return Refusal::BadArgument;
        }
        uncounted -= n;
    }
    if uncounted != 0 {
        return Refusal::BadArgument;
    }
    Refusal::TooManyFds
}

// The list against the counts of all holds and of outside ones, where it can be taken: nothing is taken yet. An `Option`, since in a
// `Result` a refusal shares the list's first byte, and the list is then copied in pieces that overlap.
pub fn listed(all: &[u64], outside: &[u64], words: &[u64]) -> Option<List>
    ensures { result ≡ listed_of (take_of (holds_with all.now outside.now) words.now).list }
{
    if 16 < words.len() {
        return None;
    }
    let mut at = [ids::BLANK; 16];
    for i in 0..words.len() {
        at[i] = held_after(all, outside, &words[..i], words[i])?;
    }
    Some(List {
        at,
        len: words.len() as u8,
    })
}

// What a list that cannot be taken is refused for.
pub fn refused(all: &[u64], outside: &[u64], words: &[u64]) -> Refusal
    ensures { result ≡ refusal_of (holds_with all.now outside.now) words.now }
{
    if 16 < words.len() {
        return long(all, outside, words);
    }
    Refusal::BadArgument
}

// The two in one: the list, or what it is refused for.
pub fn look(all: &[u64], outside: &[u64], words: &[u64]) -> Result<List, Refusal>
    ensures { result ≡ (take_of (holds_with all.now outside.now) words.now).list }
{
    match listed(all, outside, words) {
        Some(list) => Ok(list),
        None => Err(refused(all, outside, words)),
    }
}
