// Hold counts of the descriptions, lent as a slice: one hold less or more, and for each entry of a list.
// A description past the end has no holds.
#![tactic(auto)]

ghost use Rattle.std.specs.Prelude.{◌≡◌, get_or};
ghost use Rattle.fd_list.specs.Lists.{numbers};
ghost use Rattle.counts.specs.Counts.{less, more, less_all, more_all, last};

use fd_list::List;
use ids::Description;

// How many holds a description has.
pub fn count_at(a: &[u64], d: Description) -> u64
    ensures { result ≡ get_or a.now d.0 0 }
{
    a.get(usize::from(d.0)).copied().unwrap_or(0)
}

// One hold less; says whether it was the last. Stored by index, here and below: nothing is known of the other counts after a store
// through `get_mut`.
pub fn lower(a: &mut [u64], d: Description) -> bool
    ensures value { result ≡ last a.old d.0 }
    ensures a_after { a.new ≡ less a.old d.0 }
{
    let i = usize::from(d.0);
    let Some(&n) = a.get(i) else {
        return false;
    };
    a[i] = n.saturating_sub(1);
    n == 1
}

// One hold more; 65,535 stays.
pub fn higher(a: &mut [u64], d: Description)
    ensures { a.new ≡ more a.old d.0 }
{
    let i = usize::from(d.0);
    if let Some(&n) = a.get(i) {
        if n < 65535 {
            a[i] = n + 1;
        }
    }
}

// One hold more for each entry of a list. This and the next stay two: a call that is passed `higher` or `lower` would be as long. Most
// lists are empty, and only another is put where a slice of it can be taken.
pub fn raise_all(a: &mut [u64], l: List)
    ensures { a.new ≡ more_all a.old (numbers l) }
{
    if fd_list::size(l) == 0 {
        return;
    }
    let list = l;
    for d in fd_list::named(&list) {
        higher(a, *d);
    }
}

// One hold less for each entry of a list.
pub fn lower_all(a: &mut [u64], l: List)
    ensures { a.new ≡ less_all a.old (numbers l) }
{
    if fd_list::size(l) == 0 {
        return;
    }
    let list = l;
    for d in fd_list::named(&list) {
        lower(a, *d);
    }
}
