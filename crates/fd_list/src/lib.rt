// A list of descriptions sent along with a call or a response: at most 16.
#![tactic(auto)]

ghost use Rattle.std.specs.Prelude.{◌≡◌, ◌∷◌, [], ◌≤◌, get_or, length};
ghost use Rattle.fd_list.specs.Lists.{desc, named, numbers, list_of, with_of, without_of, rest_of};

use ids::Description;

// The first `len` of `at`.
#[repr(C)]
#[derive(Clone, Copy)]
pub struct List {
    pub at: [Description; 16],
    pub len: u8,
}

// A list that names nothing.
pub fn empty() -> List
    ensures { result ≡ list_of [] }
{
    let zero = ids::BLANK;
    List {
        at: [zero; 16],
        len: 0,
    }
}

// A list that names d alone.
pub fn single(d: Description) -> List
    ensures { result ≡ list_of (d.0 ∷ []) }
{
    let zero = ids::BLANK;
    let mut list = List {
        at: [zero; 16],
        len: 1,
    };
    list.at[0] = d;
    list
}

// The descriptions that a list names, in its order.
pub fn named(l: &List) -> &[Description]
    ensures value { result.now ≡ named l.now }
    ensures upper_bound { length result.now ≤ 16 }
{
    let n = size(*l);
    &l.at[..n]
}

// How many descriptions a list names.
pub fn size(l: List) -> usize
    ensures value { result ≡ length (numbers l) }
    ensures upper_bound { result ≤ 16 }
{
    usize::from(l.len).min(16)
}

// What stands at place i of a list.
pub fn pick(l: List, i: usize) -> Description
    ensures { result ≡ get_or (named l) i (desc 0) }
{
    match named(&l).get(i) {
        Some(d) => *d,
        None => ids::BLANK,
    }
}

// A list with d at place i.
pub fn with(l: List, i: usize, d: Description) -> List
    ensures { result ≡ with_of l i d }
{
    if 16 <= i {
        return l;
    }
    let mut m = l;
    m.at[i] = d;
    m
}

// A list without its first k; what stands behind its end is 0.
pub fn without(l: List, k: u8) -> List
    ensures { result ≡ without_of l k }
{
    let names = named(&l);
    let first = usize::from(k).min(names.len());
    let left = &names[first..];
    let mut at = [ids::BLANK; 16];
    at[..left.len()].copy_from_slice(left);
    List {
        at,
        len: left.len() as u8,
    }
}

// A list without its first.
pub fn rest(l: List) -> List
    ensures { result ≡ rest_of l }
{
    without(l, 1)
}
