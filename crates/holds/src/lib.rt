// The hold counts of the 64 descriptions, and the description that a word names if it has an outside hold.
#![tactic(auto)]

ghost use Rattle.std.specs.Prelude.{◌≡◌};
ghost use Rattle.holds.specs.Holds.{held_of};

use ids::Description;

// For each description all its holds, and how many of them are outside.
#[repr(C)]
#[derive(Clone, Copy)]
pub struct Holds {
    pub holds: [u64; 64],
    pub outside: [u64; 64],
}

// The description that a word names, if it is open and has an outside hold; `outside` are those that are left.
pub fn held_outside(all: &[u64], outside: &[u64], word: u64) -> Option<Description>
    ensures { result ≡ held_of all.now outside.now word }
{
    let d = ids::description_of(word)?;
    if counts::count_at(all, d) == 0 {
        return None;
    }
    if counts::count_at(outside, d) == 0 {
        return None;
    }
    Some(d)
}
