// Submission and completion entries and the completion kinds (syscall/src/schemev2.rs, lines 20 to 120).
#![tactic(auto)]

ghost use Rattle.std.specs.Prelude.{◌≡◌};
ghost use Rattle.schemev2.specs.Entry.{kind_of, extra_of, cqe_opcode_of};

// The Rust's `[u64; 6]`.
#[repr(C)]
#[derive(Clone, Copy)]
pub struct Args(pub u64, pub u64, pub u64, pub u64, pub u64, pub u64);

#[repr(C)]
#[derive(Clone, Copy)]
pub struct Sqe {
    pub opcode: u8,
    pub sqe_flags: u8,
    pub tag: u32,
    pub args: Args,
    pub caller: u64,
}

// The Rust's `[u8; 3]`.
#[repr(C)]
#[derive(Clone, Copy)]
pub struct ExtraRaw(pub u8, pub u8, pub u8);

#[repr(C)]
#[derive(Clone, Copy)]
pub struct Cqe {
    pub flags: u8,
    pub extra_raw: ExtraRaw,
    pub tag: u32,
    pub result: u64,
}

impl Cqe {
    // `flags & 0b111`: the upper five bits are ignored.
    pub fn kind(self) -> u8
        ensures { result ≡ kind_of self }
    {
        self.flags % 8
    }

    // The three extra bytes as one number.
    pub fn extra(self) -> u32
        ensures { result ≡ extra_of self }
    {
        let raw = self.extra_raw;
        (raw.0 as u32) + (raw.1 as u32) * 0x100 + (raw.2 as u32) * 0x1_0000
    }
}

// The completion kinds, 0 to 5 in this order.
#[derive(Clone, Copy, Debug, PartialEq, Eq)]
pub enum CqeOpcode {
    RespondRegular,
    RespondWithFd,
    SendFevent,
    ObtainFd,
    RespondWithMultipleFds,
    RespondAndNotifyOnDetach,
}

impl CqeOpcode {
    pub fn try_from_raw(raw: u8) -> Option<CqeOpcode>
        ensures { result ≡ cqe_opcode_of raw }
    {
        match raw {
            0 => Some(CqeOpcode::RespondRegular),
            1 => Some(CqeOpcode::RespondWithFd),
            2 => Some(CqeOpcode::SendFevent),
            3 => Some(CqeOpcode::ObtainFd),
            4 => Some(CqeOpcode::RespondWithMultipleFds),
            5 => Some(CqeOpcode::RespondAndNotifyOnDetach),
            _ => None,
        }
    }
}
