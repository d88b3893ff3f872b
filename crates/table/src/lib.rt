// The slots with the chain of vacated ones, as the slab crate keeps them (last vacated first, unused slots rising from 0),
// and the hold counts.
#![tactic(auto)]

ghost use Rattle.std.specs.Prelude.{◌≡◌};
ghost use Rattle.table.specs.Table.{fresh_table};

use holds::Holds;
use slot::Slot;

// `head` is the first vacant slot, `next` the one after each; a number over 63 ends the chain.
#[repr(C)]
#[derive(Clone, Copy)]
pub struct Table {
    pub slots: [Slot; 64],
    pub next: [u64; 64],
    pub head: u64,
    pub holds: Holds,
}

const RISING: [u64; 64] = [
    1, 2, 3, 4, 5, 6, 7, 8, 9, 10, 11, 12, 13, 14, 15, 16, 17, 18, 19, 20, 21, 22, 23, 24, 25, 26,
    27, 28, 29, 30, 31, 32, 33, 34, 35, 36, 37, 38, 39, 40, 41, 42, 43, 44, 45, 46, 47, 48, 49, 50,
    51, 52, 53, 54, 55, 56, 57, 58, 59, 60, 61, 62, 63, 64,
];

pub fn fresh() -> Table
    ensures { result ≡ fresh_table }
{
    Table {
        slots: [slot::vacant(); 64],
        next: RISING,
        head: 0,
        holds: Holds {
            holds: [0; 64],
            outside: [0; 64],
        },
    }
}
