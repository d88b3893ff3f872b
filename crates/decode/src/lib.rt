// Entries from bytes. An entry stands at the start of the slice; a byte past its end reads as 0.
#![tactic(auto)]

ghost use Rattle.std.specs.Prelude.{◌≡◌};
ghost use Rattle.schemev2.specs.Entry.{sqe_of, cqe_of};

use le::{byte, half, word};
use schemev2::{Args, Cqe, ExtraRaw, Sqe};

fn args(s: &[u8]) -> Args
    ensures { result ≡ (sqe_of s.now).args }
{
    Args(
        word(s, 8),
        word(s, 16),
        word(s, 24),
        word(s, 32),
        word(s, 40),
        word(s, 48),
    )
}

pub fn sqe(s: &[u8]) -> Sqe
    ensures { result ≡ sqe_of s.now }
{
    let args = args(s);
    Sqe {
        opcode: byte(s, 0),
        sqe_flags: byte(s, 1),
        tag: half(s, 4),
        args,
        caller: word(s, 56),
    }
}

fn extra_raw(s: &[u8]) -> ExtraRaw
    ensures { result ≡ (cqe_of s.now).extra_raw }
{
    ExtraRaw(byte(s, 1), byte(s, 2), byte(s, 3))
}

pub fn cqe(s: &[u8]) -> Cqe
    ensures { result ≡ cqe_of s.now }
{
    let raw = extra_raw(s);
    let tag = half(s, 4);
    Cqe {
        flags: byte(s, 0),
        extra_raw: raw,
        tag,
        result: word(s, 8),
    }
}
