// What a completion entry wishes, told apart once by its kind; and the handle that it names.
#![tactic(auto)]

ghost use Rattle.std.specs.Prelude.{◌≡◌};
ghost use Rattle.wish.specs.Wishes.{handle_in, wish_of};

use ids::Handle;
use parse_cqe::{CqeError, ParsedCqe};
use reply_parts::Offer;

// What an entry wishes of its slot: an event of its own, a reply with its tag, or a description into a handle. One place then responds,
// whatever kind the reply has.
#[derive(Clone, Copy)]
pub enum Wish {
    Event(u64, u64),
    Reply(u64, Offer),
    Obtain,
}

// None where it can't be had: a refused entry, and a reply out of an empty handle.
pub fn wished(p: Result<ParsedCqe, CqeError>, held: u64) -> Option<Wish>
    ensures { result ≡ wish_of p held }
{
    match p.ok()? {
        ParsedCqe::TriggerFevent { number, flags } => Some(Wish::Event(number, flags)),
        ParsedCqe::RegularResponse { tag, res, extra0 } => {
            Some(Wish::Reply(tag.0, Offer::Regular(res, extra0, false)))
        }
        ParsedCqe::ResponseWithFd { tag, .. } => {
            let word = held.checked_sub(1)?;
            Some(Wish::Reply(tag.0, Offer::Fd(word)))
        }
        ParsedCqe::ResponseWithMultipleFds { tag, .. } => Some(Wish::Reply(tag.0, Offer::Listed)),
        ParsedCqe::ObtainFd { .. } => Some(Wish::Obtain),
        ParsedCqe::RespondAndNotifyOnDetach { tag, res, extra0 } => {
            Some(Wish::Reply(tag.0, Offer::Regular(res, extra0, true)))
        }
    }
}

// The handle that an entry names; over 63 for none.
pub fn handle_in(p: Result<ParsedCqe, CqeError>) -> Handle
    ensures { result.0 ≡ handle_in p }
{
    match p {
        Ok(ParsedCqe::ResponseWithFd { fd, .. }) => fd,
        Ok(ParsedCqe::ObtainFd { dst_fd_or_ptr, .. }) => dst_fd_or_ptr,
        _ => ids::NO_HANDLE,
    }
}
