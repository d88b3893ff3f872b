// The entry of `call_generic` and of `translate_std_fs_call` (src/scheme/user.rs, lines 1384 to 1429 and 2048), and the kinds of
// file system call that are none.
#![tactic(auto)]

ghost use Rattle.std.specs.Prelude.{◌≡◌, get_or};
ghost use Rattle.events.specs.Submit.{generic_entry, wrong_kind};

use schemev2::{Args, Sqe};

// Word i, 0 where there is none.
pub fn word_or_zero(words: &[u64], i: usize) -> u64
    ensures { result ≡ get_or words.now i 0 }
{
    words.get(i).copied().unwrap_or(0)
}

// With two fds the second is the last argument and MULTIPLE_IDS is set; with one, metadata goes on to it.
pub fn entry(op: u8, tag: u32, pid: u64, fds: &[u64], base: u64, len: u64, metadata: &[u64]) -> Sqe
    ensures { result ≡ generic_entry op pid fds.now base len metadata.now tag }
{
    let first = word_or_zero(fds, 0);
    let m = word_or_zero(metadata, 0);
    let n = word_or_zero(metadata, 1);
    if fds.len() == 2 {
        let second = word_or_zero(fds, 1);
        return Sqe {
            opcode: op,
            sqe_flags: flag::sqe_multiple_ids(),
            tag,
            args: Args(first, base, len, m, n, second),
            caller: pid,
        };
    }
    let o = word_or_zero(metadata, 2);
    Sqe {
        opcode: op,
        sqe_flags: 0,
        tag,
        args: Args(first, base, len, m, n, o),
        caller: pid,
    }
}

// `StdFsCallKind::try_from_raw` (syscall/src/flag.rs, lines 536 to 559): 1 to 8 and 10 to 16.
pub fn is_wrong_kind(kind: u64) -> bool
    ensures { result ≡ wrong_kind kind }
{
    !matches!(kind, 1..=8 | 10..=16)
}
