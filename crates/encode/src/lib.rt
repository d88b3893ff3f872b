// Entries to bytes.
#![tactic(auto)]

ghost use Rattle.std.specs.Prelude.{◌≡◌};
ghost use Rattle.schemev2.specs.Entry.{cqe_bytes, sqe_bytes};
ghost use Rattle.encode.specs.Stores.{stored_args};

use le_put::{put_words, put4, put8};
use schemev2::{Args, Cqe, Sqe};

pub fn cqe_bytes(e: Cqe) -> [u8; 16]
    ensures { result ≡ cqe_bytes e }
{
    let mut out = [0; 16];
    let raw = e.extra_raw;
    out[0] = e.flags;
    out[1] = raw.0;
    out[2] = raw.1;
    out[3] = raw.2;
    put4(&mut out, 4, u64::from(e.tag));
    put8(&mut out, 8, e.result);
    out
}

// The six arguments, at bytes 8 to 55.
fn put_args(out: &mut [u8], args: Args)
    ensures { out.new ≡ stored_args out.old args }
{
    put_words(out, 8, &[args.0, args.1, args.2, args.3, args.4, args.5]);
}

pub fn sqe_bytes(e: Sqe) -> [u8; 64]
    ensures { result ≡ sqe_bytes e }
{
    let mut out = [0; 64];
    let args = e.args;
    out[0] = e.opcode;
    out[1] = e.sqe_flags;
    put4(&mut out, 4, u64::from(e.tag));
    put_args(&mut out, args);
    put8(&mut out, 56, e.caller);
    out
}
