// What the layer itself puts into an entry's arguments (src/scheme/user.rs).
#![tactic(auto)]

ghost use Rattle.std.specs.Prelude.{◌≡◌};
ghost use Rattle.user_args.specs.Args.{merge_of};

// Who calls: the Rust's `CallerCtx`.
#[derive(Clone, Copy)]
pub struct CallerCtx {
    pub pid: u64,
    pub uid: u32,
    pub gid: u32,
}

// Lines 2086 to 2088.
pub fn uid_gid_hack_merge(uid: u32, gid: u32) -> u64
    ensures { result ≡ merge_of uid gid }
{
    (uid as u64) + (gid as u64) * 0x1_0000_0000
}
