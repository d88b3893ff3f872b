// The driver's handles among the words.
#![tactic(auto)]

ghost use Rattle.std.specs.Prelude.{◌≡◌, set};
ghost use Rattle.handles.specs.Handles.{held_at, into};
ghost use Rattle.events.specs.World.{handles_of};
ghost use Rattle.layout.specs.Layout.{plain_of};
ghost use Rattle.layout.specs.Store.{stored, handles as handlesStore};

use ids::{Description, Handle};

// What handle k holds: 0, or the description and 1; one over 63 is empty.
#[tactic(auto, using(crate::proofs::Handles::handle_in_lem, crate::proofs::Handles::handle_none))]
pub fn held_at(s: &[u64; 2060], k: Handle) -> u64
    ensures { result ≡ held_at (handles_of (plain_of s.now)) k.0 }
{
    if k.0 < 64 {
        return s[layout::HANDLES + k.0 as usize];
    }
    0
}

// Handle k holds v from now on: 0, or the description and 1; a store to one over 63 is nothing.
#[tactic(auto, using(crate::proofs::Handles::handle_set, crate::proofs::Handles::handle_kept))]
pub fn set_handle(s: &mut [u64; 2060], k: Handle, v: u64)
    ensures { s.new ≡ stored s.old (handlesStore (set (handles_of (plain_of s.old)).at k.0 v)) }
{
    if k.0 < 64 {
        s[layout::HANDLES + k.0 as usize] = v;
    }
}

// Handle k holds d from now on.
pub fn put_into(s: &mut [u64; 2060], k: Handle, d: Description)
    ensures { s.new ≡ stored s.old (handlesStore (into (handles_of (plain_of s.old)) k.0 d.0).at) }
{
    set_handle(s, k, u64::from(d.0) + 1);
}
