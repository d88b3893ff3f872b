// A slot and the few ways in which one is made: `State` and `Response` of src/scheme/user.rs, lines 51 to 68.
#![tactic(auto)]

ghost use Rattle.std.specs.Prelude.{◌≡◌};
ghost use Rattle.slot.specs.Slots.{phase_of, made_of, vacant_slot, placeholder_of, waiting_of, canceled_of, interrupted_of, responded_of, map_request_of, ended_of, with_fds_of};

use fd_list::List;

// Pages that whoever responds has to unmap: the first page and how many.
#[repr(C)]
#[derive(Clone, Copy)]
pub struct PageSpan {
    pub base: u64,
    pub count: u64,
}

// A stored reply: kind 0 a success (its word), 1 an error (its errno), 2 one descriptor (the description), 3 many (they
// stand in the slot's list). `notice` is set by kind 5 of a completion.
#[repr(C)]
#[derive(Clone, Copy)]
pub struct Reply {
    pub kind: u8,
    pub extra0: u8,
    pub notice: bool,
    pub word: u64,
}

// `state` is a phase's number. The marks: a Cancel was queued or its caller killed, the caller has ended, the call has
// returned.
#[repr(C)]
#[derive(Clone, Copy)]
pub struct Slot {
    pub state: u8,
    pub caller: u32,
    pub canceling: bool,
    pub ended: bool,
    pub returned: bool,
    pub span: PageSpan,
    pub reply: Reply,
    pub fds: List,
}

#[derive(Clone, Copy, Debug, PartialEq, Eq)]
pub enum Phase {
    Vacant,
    Placeholder,
    Waiting,
    Responded,
    Fmap,
}

// What a completion entry decides to become of its slot.
#[derive(Clone, Copy, Debug, PartialEq, Eq)]
pub enum Act {
    Leave,
    Store,
    Vacate,
}

// A number that names no phase reads as Vacant.
pub fn phase_of(v: Slot) -> Phase
    ensures { result ≡ phase_of v }
{
    match v.state {
        1 => Phase::Placeholder,
        2 => Phase::Waiting,
        3 => Phase::Responded,
        4 => Phase::Fmap,
        _ => Phase::Vacant,
    }
}

fn made(state: u8, caller: u32, fds: List) -> Slot
    ensures { result ≡ made_of state caller fds }
{
    Slot {
        state,
        caller,
        canceling: false,
        ended: false,
        returned: false,
        span: PageSpan { base: 0, count: 0 },
        reply: Reply {
            kind: 0,
            extra0: 0,
            notice: false,
            word: 0,
        },
        fds,
    }
}

pub fn vacant() -> Slot
    ensures { result ≡ vacant_slot }
{
    made(0, 0, fd_list::empty())
}

pub fn placeholder(caller: u32) -> Slot
    ensures { result ≡ placeholder_of caller }
{
    made(1, caller, fd_list::empty())
}

pub fn waiting(caller: u32, fds: List) -> Slot
    ensures { result ≡ waiting_of caller fds }
{
    made(2, caller, fds)
}

pub fn map_request(caller: u32) -> Slot
    ensures { result ≡ map_request_of caller }
{
    made(4, caller, fd_list::empty())
}

// A wake found it still blocked.
pub fn canceled(v: Slot) -> Slot
    ensures { result ≡ canceled_of v }
{
    let mut w = v;
    w.canceling = true;
    w
}

// Its caller was killed: whoever responds unmaps the span.
pub fn interrupted(v: Slot, span: PageSpan) -> Slot
    ensures { result ≡ interrupted_of v span }
{
    let mut w = v;
    w.canceling = true;
    w.returned = true;
    w.span = span;
    w
}

pub fn responded(v: Slot, reply: Reply, fds: List) -> Slot
    ensures { result ≡ responded_of v reply fds }
{
    let mut w = made(3, v.caller, fds);
    w.returned = v.returned;
    w.reply = reply;
    w
}

pub fn caller_ended(v: Slot) -> Slot
    ensures { result ≡ ended_of v }
{
    let mut w = v;
    w.ended = true;
    w
}

pub fn with_fds(v: Slot, fds: List) -> Slot
    ensures { result ≡ with_fds_of v fds }
{
    let mut w = v;
    w.fds = fds;
    w
}
