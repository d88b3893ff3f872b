// What a reply entry brings, taken apart at its slot: the reply as it is stored (`respond`, src/scheme/user.rs, lines 926 to
// 1008), the list that is kept and the one that goes.
#![tactic(auto)]

ghost use Rattle.std.specs.Prelude.{◌≡◌};
ghost use Rattle.events.specs.Entry.{stored_errno, stored_result, stored_as, named_of};
ghost use Rattle.reply_parts.specs.Parts.{offered, parts_of};

use fd_list::List;
use slot::{Reply, Slot};

// What a reply entry brings: a result with extra0 and the notice, a description out of a handle, or the slot's own list.
#[derive(Clone, Copy)]
pub enum Offer {
    Regular(error::Result, u8, bool),
    Fd(u64),
    Listed,
}

// The reply as it is stored, the list that it keeps, the list that is dropped, and its own holds.
#[derive(Clone, Copy)]
pub struct Parts {
    pub reply: Reply,
    pub kept: List,
    pub gone: List,
    pub own: List,
}

// Cancelling and ECANCELED is stored as EINTR; not cancelling and EINTR as EIO.
fn stored_errno(canceling: bool, errno: u64) -> u64
    ensures { result ≡ stored_errno canceling errno }
{
    match (canceling, errno) {
        (true, 125) => 4,
        (false, 4) => 5,
        _ => errno,
    }
}

fn stored(canceling: bool, res: error::Result, extra0: u8, notice: bool) -> Reply
    ensures { result ≡ stored_as (stored_result canceling res extra0 notice) }
{
    match res {
        Ok(word) => Reply {
            kind: 0,
            extra0,
            notice,
            word,
        },
        Err(error) => Reply {
            kind: 1,
            extra0,
            notice,
            word: stored_errno(canceling, error.number()),
        },
    }
}

// A word over 63 names no description and has no holds.
pub fn one_or_none(word: u64) -> List
    ensures { result ≡ named_of word }
{
    match ids::description_of(word) {
        Some(d) => fd_list::single(d),
        None => fd_list::empty(),
    }
}

pub fn taken_apart(v: Slot, offer: Offer) -> Parts
    ensures { result ≡ parts_of v (offered offer) }
{
    let none = fd_list::empty();
    match offer {
        Offer::Regular(res, extra0, notice) => Parts {
            reply: stored(v.canceling, res, extra0, notice),
            kept: none,
            gone: v.fds,
            own: none,
        },
        Offer::Fd(word) => Parts {
            reply: Reply {
                kind: 2,
                extra0: 0,
                notice: false,
                word,
            },
            kept: none,
            gone: v.fds,
            own: one_or_none(word),
        },
        Offer::Listed => Parts {
            reply: Reply {
                kind: 3,
                extra0: 0,
                notice: false,
                word: 0,
            },
            kept: v.fds,
            gone: none,
            own: v.fds,
        },
    }
}
