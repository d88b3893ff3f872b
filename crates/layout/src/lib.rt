// Where each thing stands in the state's 2,060 words (specs/Layout.antt has the definitions): no other crate names a place, and
// only those that read and store the words use one.
#![tactic(auto)]

// So many words to a slot, from 0 on; then the chain of vacated slots, with one for each.
pub const SLOT: usize = 12;

pub const CHAIN: usize = 768;

pub const HEAD: usize = 832;

pub const ALL: usize = 840;

pub const OUTSIDE: usize = 904;

pub const SCHEME: usize = 968;

pub const FIRST: usize = 969;

pub const UNREAD: usize = 970;

pub const HANDLES: usize = 972;

pub const QUEUE: usize = 1036;
