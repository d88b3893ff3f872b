// Holds of a list dropped, with the close effects that follow: three words each, lent to be stored.
// Words past the end of those lent are not stored.
#![tactic(auto)]

ghost use Rattle.std.specs.Prelude.{◌≡◌, ◌∷◌, [], ◌+◌, ◌*◌, ◌<◌, ◌≤◌, length};
ghost use Rattle.std.proofs.lemmas.List.Edits.{sets};
ghost use Rattle.fd_list.specs.Lists.{numbers};
ghost use Rattle.counts.specs.Counts.{less, less_all, lasts};
ghost use Rattle.closes.specs.Closes.{closing, only, close, closes};

use fd_list::List;
use ids::Description;

// Why holds inside the layer are dropped.
#[derive(Clone, Copy, Debug, PartialEq, Eq)]
pub enum Reason {
    Replied,
    Ended,
    Refused,
    Replaced,
    Unusable,
}

// Whether a close effect follows the last hold's drop.
pub fn is_closing(why: Reason) -> bool
    ensures { result ≡ closing why }
{
    matches!(why, Reason::Replied)
}

// The close effect number k from place `at`.
fn close_at(fx: &mut [u64], at: usize, k: usize, d: Description)
    requires { k < 16 }
    ensures { fx.new ≡ sets fx.old (at + 3 * k) (close d.0) }
{
    if fx.len() <= at {
        return;
    }
    let j = at + 3 * k;
    word_put::put3(fx, j, 3, d.0 as u64, 0);
}

// One hold dropped, with its close where it was the last and one follows: k closes before it, so many after it.
fn drop_step(
    a: &mut [u64],
    d: Description,
    follows: bool,
    fx: &mut [u64],
    at: usize,
    k: usize,
) -> usize
    requires { k < 16 }
    ensures value { result ≡ k + length (only follows (lasts a.old (d.0 ∷ []))) }
    ensures a_after { a.new ≡ less a.old d.0 }
    ensures fx_after { fx.new ≡ sets fx.old (at + 3 * k) (closes (only follows (lasts a.old (d.0 ∷ [])))) }
{
    let gone = counts::lower(a, d);
    if gone && follows {
        close_at(fx, at, k, d);
        return k + 1;
    }
    k
}

// A list's holds dropped, the closes stored from word `at` in list order; says how many closes these are.
pub fn drop_all(a: &mut [u64], l: List, follows: bool, fx: &mut [u64], at: usize) -> usize
    ensures value { result ≡ length (only follows (lasts a.old (numbers l))) }
    ensures a_after { a.new ≡ less_all a.old (numbers l) }
    ensures fx_after { fx.new ≡ sets fx.old at (closes (only follows (lasts a.old (numbers l)))) }
    ensures upper_bound { result ≤ 16 }
{
    // as in `counts::raise_all`
    if fd_list::size(l) == 0 {
        return 0;
    }
    let list = l;
    let mut k = 0;
    for d in fd_list::named(&list) {
        k = drop_step(a, *d, follows, fx, at, k);
    }
    k
}
