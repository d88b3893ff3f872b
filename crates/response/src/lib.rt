// How a reply that was handed over is read by whoever made the call (01, "Reading replies"; src/scheme/user.rs:
// `into_regular` 71, `call_generic` 1431 to 1445, `kopenat` 1472, `kdup` 1705, `kfdwrite` 1990, `kfdread` 2027 to 2045). A reply is
// the slot's, and its list beside it.
#![tactic(auto)]

ghost use Rattle.std.specs.Prelude.{◌≡◌};
ghost use Rattle.events.specs.Replies.{into_regular_of, call_generic_of, notice_of, kfdwrite_of, kfdread_of, kopenat_of, kdup_of};
ghost use Rattle.events.specs.Wake.{response_from};
ghost use Rattle.response.specs.Response.{kind_named, front_answer, opened_as};

use fd_list::List;
use slot::Reply;

// The Rust's `Response` by its stored number.
#[derive(Clone, Copy, Debug, PartialEq, Eq)]
enum Kind {
    Success,
    Error,
    Fd,
    MultipleFds,
}

// A reply's errno, any word.
#[derive(Clone, Copy, Debug, PartialEq, Eq)]
pub struct Errno(pub u64);

// Another kind of reply than the front takes.
const EIO: Errno = Errno(5);

// Flags that are unknown.
const EINVAL: Errno = Errno(22);

// With the notice of a completion's kind 5.
#[derive(Clone, Copy)]
pub struct CallGeneric {
    pub answer: Result<u64, Errno>,
    pub notice: bool,
}

// A number of the scheme's own with its flags, or a description.
#[derive(Clone, Copy, Debug, PartialEq, Eq)]
pub enum OpenResult {
    SchemeLocal(u64, u8),
    External(u64),
}

fn kind_of(reply: Reply) -> Kind
    ensures { result ≡ kind_named reply.kind }
{
    match reply.kind {
        0 => Kind::Success,
        1 => Kind::Error,
        2 => Kind::Fd,
        _ => Kind::MultipleFds,
    }
}

pub fn into_regular(reply: Reply, fds: List) -> Result<u64, Errno>
    ensures { front_answer result ≡ into_regular_of (response_from reply fds) }
{
    match kind_of(reply) {
        Kind::Success => Ok(reply.word),
        Kind::Error => Err(Errno(reply.word)),
        Kind::Fd => Err(EIO),
        Kind::MultipleFds => Err(EIO),
    }
}

// An error has its notice too.
fn notice_of(reply: Reply, fds: List) -> bool
    ensures { result ≡ notice_of (response_from reply fds) }
{
    match kind_of(reply) {
        Kind::Success => reply.notice,
        Kind::Error => reply.notice,
        Kind::Fd => false,
        Kind::MultipleFds => false,
    }
}

pub fn call_generic(reply: Reply, fds: List) -> CallGeneric
    ensures { (front_answer result.answer ≡ call_generic_of (response_from reply fds)) × (result.notice ≡ notice_of (response_from reply fds)) }
{
    CallGeneric {
        answer: into_regular(reply, fds),
        notice: notice_of(reply, fds),
    }
}

pub fn kfdwrite(reply: Reply, fds: List) -> Result<u64, Errno>
    ensures { front_answer result ≡ kfdwrite_of (response_from reply fds) }
{
    into_regular(reply, fds)
}

pub fn kfdread(reply: Reply, fds: List) -> Result<u64, Errno>
    ensures { front_answer result ≡ kfdread_of (response_from reply fds) }
{
    let count = fd_list::size(fds) as u64;
    match kind_of(reply) {
        Kind::Success => Err(EIO), // a word where descriptors are waited for
        Kind::Error => Err(Errno(reply.word)),
        Kind::Fd => Err(EIO), // one, where a list is waited for
        Kind::MultipleFds => Ok(count),
    }
}

// The error first, then unknown bits.
pub fn kopenat(reply: Reply, fds: List) -> Result<OpenResult, Errno>
    ensures { opened_as result ≡ kopenat_of (response_from reply fds) }
{
    match kind_of(reply) {
        Kind::Success => {
            if !flag::new_fd_flags_known(reply.extra0 as u64) {
                return Err(EINVAL);
            }
            Ok(OpenResult::SchemeLocal(reply.word, reply.extra0))
        }
        Kind::Error => Err(Errno(reply.word)),
        Kind::Fd => Ok(OpenResult::External(reply.word)),
        Kind::MultipleFds => Err(EIO),
    }
}

pub fn kdup(reply: Reply, fds: List) -> Result<OpenResult, Errno>
    ensures { opened_as result ≡ kdup_of (response_from reply fds) }
{
    kopenat(reply, fds)
}
