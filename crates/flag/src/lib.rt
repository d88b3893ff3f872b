// Flag bits and masks of the commit. A set of bits is known where no bit lies outside its mask, as `from_bits` has it.
#![tactic(auto)]

ghost use Rattle.std.specs.Prelude.{◌≡◌, cond};
ghost use Rattle.flag.specs.Flags.{within, event_read, event_hup, event_flags, fobtain_fd_flags, new_fd_flags, send_fd_flags, recv_fd_flags, sqe_oneway, sqe_multiple_ids};

fn is_within(mask: u64, bits: u64) -> bool
    ensures { result ≡ within mask bits }
{
    mask & bits == bits
}

// `EventFlags`: syscall/src/flag.rs, lines 46 to 53.
const EVENT_READ: u64 = 1;

const EVENT_WRITE: u64 = 2;

const EVENT_HUP: u64 = 4;

const EVENT_ERR: u64 = 8;

const EVENT_NVAL: u64 = 16;

const EVENT_FLAGS: u64 = EVENT_READ | EVENT_WRITE | EVENT_HUP | EVENT_ERR | EVENT_NVAL;

pub fn event_read() -> u64
    ensures { result ≡ event_read }
{
    EVENT_READ
}

pub fn event_hup() -> u64
    ensures { result ≡ event_hup }
{
    EVENT_HUP
}

pub fn event_flags_known(bits: u64) -> bool
    ensures { result ≡ within event_flags bits }
{
    is_within(EVENT_FLAGS, bits)
}

// `FobtainFdFlags`: syscall/src/flag.rs, lines 83 to 101.
const FOBTAIN_MANUAL_FD: u64 = 1;

const FOBTAIN_EXCLUSIVE: u64 = 2;

const FOBTAIN_UPPER_TBL: u64 = 4;

const FOBTAIN_CLOEXEC: u64 = 8;

const FOBTAIN_FD_FLAGS: u64 = FOBTAIN_MANUAL_FD
    | FOBTAIN_EXCLUSIVE
    | FOBTAIN_UPPER_TBL
    | FOBTAIN_CLOEXEC;

pub fn fobtain_fd_flags_known(bits: u64) -> bool
    ensures { result ≡ within fobtain_fd_flags bits }
{
    is_within(FOBTAIN_FD_FLAGS, bits)
}

// `NewFdFlags`: syscall/src/schemev2.rs, lines 79 to 81.
const NEW_FD_POSITIONED: u64 = 1;

const NEW_FD_FLAGS: u64 = NEW_FD_POSITIONED;

pub fn new_fd_flags_known(bits: u64) -> bool
    ensures { result ≡ within new_fd_flags bits }
{
    is_within(NEW_FD_FLAGS, bits)
}

// `CallFlags`: syscall/src/flag.rs, lines 493 and 495.
const FD_EXCLUSIVE: u64 = 0x1000;

const FD_UPPER: u64 = 0x4000;

// `SendFdFlags`, line 74, and `RecvFdFlags`, line 112.
const SEND_FD_EXCLUSIVE: u64 = 1;

const RECV_FD_UPPER_TBL: u64 = 2;

// The flag that is told where all bits of a mask are among a call's.
fn told(bits: u64, mask: u64, flag: u64) -> u64
    ensures { result ≡ cond (within bits mask) flag 0 }
{
    if is_within(bits, mask) { flag } else { 0 }
}

// What a driver is told of a call's flags: one bit of them, and none of the others (src/scheme/user.rs, lines 1968 to 1971 and
// 2005 to 2008).
pub fn send_fd_flags(bits: u64) -> u64
    ensures { result ≡ send_fd_flags bits }
{
    told(bits, FD_EXCLUSIVE, SEND_FD_EXCLUSIVE)
}

pub fn recv_fd_flags(bits: u64) -> u64
    ensures { result ≡ recv_fd_flags bits }
{
    told(bits, FD_UPPER, RECV_FD_UPPER_TBL)
}

// `SqeFlags`: syscall/src/schemev2.rs, lines 45 to 53.
const SQE_ONEWAY: u8 = 1;

const SQE_MULTIPLE_IDS: u8 = 2;

pub fn sqe_oneway() -> u8
    ensures { result ≡ sqe_oneway }
{
    SQE_ONEWAY
}

pub fn sqe_multiple_ids() -> u8
    ensures { result ≡ sqe_multiple_ids }
{
    SQE_MULTIPLE_IDS
}
