// A completion entry taken apart: `ParsedCqe::parse_cqe` (src/scheme/user.rs, lines 84 to 154).
#![tactic(auto)]

ghost use Rattle.std.specs.Prelude.{◌≡◌};
ghost use Rattle.answer.specs.Numbered.{number_of};
ghost use Rattle.parse_cqe.specs.Parsed.{parsed_of, event_of, obtain_of, parsed_answer};

use error::{EINVAL, Error};
use ids::{Handle, Tag};
use schemev2::{Cqe, CqeOpcode};

// What an entry asks for. No completion kind leads to the Rust's `ProvideMmap`.
#[derive(Clone, Copy)]
pub enum ParsedCqe {
    TriggerFevent {
        number: u64,
        flags: u64,
    },
    RegularResponse {
        tag: Tag,
        res: error::Result,
        extra0: u8,
    },
    ResponseWithFd {
        tag: Tag,
        fd: Handle,
    },
    ResponseWithMultipleFds {
        tag: Tag,
        num_fds: u64,
    },
    ObtainFd {
        tag: Tag,
        flags: u32,
        dst_fd_or_ptr: Handle,
    },
    RespondAndNotifyOnDetach {
        tag: Tag,
        res: error::Result,
        extra0: u8,
    },
}

// Why an entry is refused before its tag is looked at.
#[derive(Clone, Copy, Debug, PartialEq, Eq)]
pub enum CqeError {
    UnknownKind,
    UnknownEventFlags,
    UnknownObtainFlags,
}

// `SendFevent`: the tag's place holds the event flags.
fn event(cqe: Cqe) -> Result<ParsedCqe, CqeError>
    ensures { result ≡ event_of cqe }
{
    let flags = cqe.tag as u64;
    if flag::event_flags_known(flags) {
        return Ok(ParsedCqe::TriggerFevent {
            number: cqe.result,
            flags,
        });
    }
    Err(CqeError::UnknownEventFlags)
}

// `ObtainFd`: extra holds the flags.
fn obtain(cqe: Cqe) -> Result<ParsedCqe, CqeError>
    ensures { result ≡ obtain_of cqe }
{
    let flags = cqe.extra();
    if flag::fobtain_fd_flags_known(flags as u64) {
        return Ok(ParsedCqe::ObtainFd {
            tag: Tag(cqe.tag as u64),
            flags,
            dst_fd_or_ptr: ids::handle_of(cqe.result),
        });
    }
    Err(CqeError::UnknownObtainFlags)
}

pub fn parse_cqe(cqe: Cqe) -> Result<ParsedCqe, CqeError>
    ensures { result ≡ parsed_of cqe }
{
    let kind = CqeOpcode::try_from_raw(cqe.kind()).ok_or(CqeError::UnknownKind)?;
    let raw = cqe.extra_raw;
    let tag = Tag(cqe.tag as u64);
    match kind {
        CqeOpcode::RespondRegular => Ok(ParsedCqe::RegularResponse {
            tag,
            res: Error::demux(cqe.result),
            extra0: raw.0,
        }),
        CqeOpcode::RespondWithFd => Ok(ParsedCqe::ResponseWithFd {
            tag,
            fd: ids::handle_of(cqe.result),
        }),
        CqeOpcode::SendFevent => event(cqe),
        CqeOpcode::ObtainFd => obtain(cqe),
        CqeOpcode::RespondWithMultipleFds => Ok(ParsedCqe::ResponseWithMultipleFds {
            tag,
            num_fds: cqe.result,
        }),
        CqeOpcode::RespondAndNotifyOnDetach => Ok(ParsedCqe::RespondAndNotifyOnDetach {
            tag,
            res: Error::demux(cqe.result),
            extra0: raw.0,
        }),
    }
}

// 01's number: 0 for an entry that is taken, else the refusal's.
pub fn number(parsed: Result<ParsedCqe, CqeError>) -> u64
    ensures { result ≡ number_of (parsed_answer parsed) }
{
    match parsed {
        Ok(_) => 0,
        Err(_) => EINVAL,
    }
}
