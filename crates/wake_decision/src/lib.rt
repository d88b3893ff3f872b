// What a wake answers and does, decided on the tag's slot (`call_inner`, src/scheme/user.rs, lines 256 to 392).
#![tactic(auto)]

ghost use Rattle.std.specs.Prelude.{◌≡◌, eqb, leb, length};
ghost use Rattle.fd_list.specs.Lists.{numbers};
ghost use Rattle.holds.specs.declared.Holds.{Holds};
ghost use Rattle.holds.specs.Holds.{outside_of};
ghost use Rattle.slot.specs.Slots.{phase_of};
ghost use Rattle.events.specs.Wake.{response_from, held_in, cancel_entry, wakeable};
ghost use Rattle.wake_decision.specs.Wake.{does, decided_of};

use answer::{Accepted, Answer, Refusal};
use fd_list::List;
use ids::SlotNo;
use opcode::Opcode;
use schemev2::{Args, Sqe};
use slot::{Phase, Reply, Slot};

// What a wake does: nothing, marks the call killed, queues a Cancel, hands the reply over.
#[derive(Clone, Copy, Debug, PartialEq, Eq)]
pub enum Turn {
    Stay,
    Interrupt,
    Cancel,
    HandOver,
}

#[derive(Clone, Copy)]
pub struct Decided {
    pub answer: Answer,
    pub turn: Turn,
}

fn does(answer: Answer, turn: Turn) -> Decided
    ensures { result ≡ does answer turn }
{
    Decided { answer, turn }
}

// Its own caller, neither ended nor returned.
fn is_wakeable(v: Slot, caller: u32) -> bool
    ensures { result ≡ wakeable v caller }
{
    v.caller == caller && !v.ended && !v.returned
}

// The holds that a reply brings, which become outside holds.
pub fn holds_in(r: Reply, fds: List) -> List
    ensures { (h : Holds) → length h.outside ≡ 64 → outside_of h (numbers result) ≡ outside_of h (held_in (response_from r fds)) }
{
    let kind = r.kind;
    if kind < 2 {
        return fd_list::empty();
    }
    if 2 < kind {
        return fds;
    }
    match ids::description_of(r.word) {
        Some(d) => fd_list::single(d),
        None => fd_list::empty(),
    }
}

// The decision on the tag's slot, with so many entries unread.
pub fn decide(v: Slot, caller: u32, killed: u64, unread: u64) -> Decided
    ensures { result ≡ decided_of (phase_of v) (wakeable v caller) (eqb killed 1) v.canceling (leb 128 unread) }
{
    match slot::phase_of(v) {
        Phase::Vacant => does(Err(Refusal::BadDescriptor), Turn::Stay),
        Phase::Placeholder => does(Err(Refusal::BadDescriptor), Turn::Stay),
        Phase::Fmap => does(Err(Refusal::BadDescriptor), Turn::Stay),
        Phase::Waiting => {
            if !is_wakeable(v, caller) {
                return does(Err(Refusal::NotYours), Turn::Stay);
            }
            if killed == 1 {
                return does(Err(Refusal::Interrupted), Turn::Interrupt);
            }
            if v.canceling {
                return does(Ok(Accepted::Blocked), Turn::Stay);
            }
            if 128 <= unread {
                return does(Err(Refusal::QueueFull), Turn::Stay);
            }
            does(Ok(Accepted::Blocked), Turn::Cancel)
        }
        Phase::Responded => {
            if !is_wakeable(v, caller) {
                return does(Err(Refusal::NotYours), Turn::Stay);
            }
            does(Ok(Accepted::Replied), Turn::HandOver)
        }
    }
}

// Cancel: one-way, the call's tag, all else 0.
pub fn cancel_entry(n: SlotNo) -> Sqe
    ensures { result ≡ cancel_entry n.0 }
{
    Sqe {
        opcode: Opcode::Cancel.raw(),
        sqe_flags: flag::sqe_oneway(),
        tag: n.0 as u32,
        args: Args(0, 0, 0, 0, 0, 0),
        caller: 0,
    }
}
