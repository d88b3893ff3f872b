// The opcodes of submission entries: `Opcode::try_from_raw` (syscall/src/schemev2.rs, lines 126 to 212).
#![tactic(auto)]

ghost use Rattle.std.specs.Prelude.{◌≡◌};
ghost use Rattle.opcode.specs.Opcodes.{opcode_of, raw_of, raw_in};

// The Rust's `enum Opcode`.
#[derive(Clone, Copy, Debug, PartialEq, Eq)]
pub enum Opcode {
    Close = 3,
    Dup = 4,
    Read = 5,
    Write = 6,
    Fsize = 7,
    Fchmod = 8,
    Fchown = 9,
    Fcntl = 10,
    Fevent = 11,
    Sendfd = 12,
    Fpath = 13,
    Frename = 14,
    Fstat = 15,
    Fstatvfs = 16,
    Fsync = 17,
    Ftruncate = 18,
    Futimens = 19,
    MmapPrep = 20,
    RequestMmap = 21,
    Mremap = 22,
    Munmap = 23,
    Msync = 24,
    Cancel = 25,
    Getdents = 26,
    CloseMsg = 27,
    Call = 28,
    OpenAt = 29,
    Flink = 30,
    Recvfd = 31,
    UnlinkAt = 32,
    StdFsCall = 33,
    Detach = 34,
}

// The one table of them, in the enum's order: they rise one by one, so that a number's place is its distance from the first.
const OPCODES: [Opcode; 32] = [
    Opcode::Close,
    Opcode::Dup,
    Opcode::Read,
    Opcode::Write,
    Opcode::Fsize,
    Opcode::Fchmod,
    Opcode::Fchown,
    Opcode::Fcntl,
    Opcode::Fevent,
    Opcode::Sendfd,
    Opcode::Fpath,
    Opcode::Frename,
    Opcode::Fstat,
    Opcode::Fstatvfs,
    Opcode::Fsync,
    Opcode::Ftruncate,
    Opcode::Futimens,
    Opcode::MmapPrep,
    Opcode::RequestMmap,
    Opcode::Mremap,
    Opcode::Munmap,
    Opcode::Msync,
    Opcode::Cancel,
    Opcode::Getdents,
    Opcode::CloseMsg,
    Opcode::Call,
    Opcode::OpenAt,
    Opcode::Flink,
    Opcode::Recvfd,
    Opcode::UnlinkAt,
    Opcode::StdFsCall,
    Opcode::Detach,
];

impl Opcode {
    // The opcode that a number is, if it is one: the table decides.
    pub fn try_from_raw(raw: u64) -> Option<Opcode>
        ensures { raw_in result ≡ opcode_of raw }
    {
        let n = raw.checked_sub(OPCODES[0] as u64)?;
        if 32 <= n {
            return None;
        }
        Some(OPCODES[n as usize])
    }

    // Its number, as an entry has it.
    pub fn raw(self) -> u8
        ensures { result ≡ raw_of self }
    {
        self as u8
    }
}
