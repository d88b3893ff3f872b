// Entries there and back, on every value: decode of encode is the entry, encode of decode the same bytes.
#![tactic(auto)]

ghost use Rattle.std.specs.Prelude.{◌≡◌, length, set};

use schemev2::{Cqe, Sqe};

pub fn sqe_again(e: Sqe) -> Sqe
    ensures { result ≡ e }
{
    let bytes = encode::sqe_bytes(e);
    decode::sqe(&bytes)
}

pub fn cqe_again(e: Cqe) -> Cqe
    ensures { result ≡ e }
{
    let bytes = encode::cqe_bytes(e);
    decode::cqe(&bytes)
}

// The reserved bytes, 2 and 3, come back as 0.
pub fn sqe_bytes_again(s: &[u8]) -> [u8; 64]
    ensures { length s.now ≡ 64 → result ≡ set (set s.now 2 0) 3 0 }
{
    encode::sqe_bytes(decode::sqe(s))
}

pub fn cqe_bytes_again(s: &[u8]) -> [u8; 16]
    ensures { length s.now ≡ 16 → result ≡ s.now }
{
    encode::cqe_bytes(decode::cqe(s))
}
