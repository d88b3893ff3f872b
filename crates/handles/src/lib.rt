// The driver's handles: each empty, or holding one description.
#![tactic(auto)]

// Handle n is empty (0) or holds description d (d + 1).
#[repr(C)]
#[derive(Clone, Copy)]
pub struct Handles {
    pub at: [u64; 64],
}
