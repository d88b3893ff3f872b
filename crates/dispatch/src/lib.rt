// The dispatch by kind: the function of the event that a record holds.
#![tactic(auto)]

ghost use Rattle.std.specs.Prelude.{◌≡◌, List, ℕ};
ghost use Rattle.record.specs.Record.{event_named};
ghost use Rattle.events.specs.Event.{on, obtain as obtainEvent};
ghost use Rattle.step.specs.Does.{answer_of, effects_of, Does};
ghost use Rattle.dispatch.specs.Dispatch.{tells_more, Dispatched};

use answer::Refusal;
use ids::Tag;
use record::{EventKind, Record};
use schemev2::Args;
use step::Step;
use user_args::CallerCtx;

// Who calls.
fn ctx(r: Record, pid: u64) -> CallerCtx
    ensures { result ≡ record { pid = pid; uid = r.uid; gid = r.gid } }
{
    CallerCtx {
        pid,
        uid: r.uid,
        gid: r.gid,
    }
}

// A function of its own: `call_fdread` is inlined, and among the code of the other kinds it takes a fifth more time.
#[inline(never)]
fn obtain(s: &mut [u64; 2060], metadata: &[u64]) -> Result<Step, Refusal>
    ensures { Does s.old s.new (on (obtainEvent metadata.now)) (answer_of result) (effects_of result) }
{
    call_fd::call_fdread(s, metadata)
}

// The event of a record with its two lists. A wake, a read and a write tell more than an answer and an effect, and are none here.
pub fn event(s: &mut [u64; 2060], r: Record, first: &[u64], second: &[u64]) -> Result<Step, Refusal>
    ensures { (bs : List ℕ) (lent : ℕ) → Dispatched (tells_more r.kind) s.old s.new (event_named r.kind r first.now second.now bs lent) (answer_of result) (effects_of result) }
{
    let a = r.words;
    let c = r.number;
    // A number that names no kind is a supply's, as in `event_named`.
    let kind = EventKind::try_from_raw(r.kind).unwrap_or(EventKind::Supply);
    match kind {
        EventKind::HostOpen => host::open(s, a.0),
        EventKind::HostCopy => host::copy(s, a.0),
        EventKind::HostDrop => host::drop(s, a.0),
        EventKind::HostPut => host::put(s, a.0, a.1),
        EventKind::HostEnded => host::ended(s, c),
        EventKind::Reserve => next_id::next_id(s, c),
        EventKind::Submit => submit::submit(
            s,
            first,
            Tag(a.0),
            c,
            a.1,
            r.flags,
            Args(a.2, a.3, a.4, a.5, a.6, a.7),
            a.8,
        ),
        EventKind::Call => call::call(
            s,
            first,
            c,
            a.0,
            Args(a.1, a.2, a.3, a.4, a.5, a.6),
            ctx(r, a.7),
        ),
        EventKind::Generic => call_generic::call_generic(s, c, a.0, first, a.1, a.2, second),
        EventKind::StdFs => call_generic::translate_std_fs_call(s, c, a.0, first, a.1, a.2, second),
        EventKind::Fmap => request_fmap::request_fmap(s, c, a.0, a.1, a.2, ctx(r, a.3)),
        EventKind::Close => close::close(s, a.0),
        EventKind::Detach => close::detach(s, a.0, a.1),
        EventKind::Wake | EventKind::Read | EventKind::Write => { Err(Refusal::BadArgument) }
        EventKind::Move => call_fd::call_fdwrite(s, first, second),
        EventKind::Obtain => obtain(s, first),
        EventKind::FdWrite => kfd::kfdwrite(s, second, first, c, a.0, a.1, ctx(r, a.2)),
        EventKind::FdRead => kfd::kfdread(s, first, c, a.0, a.1, a.2, ctx(r, a.3)),
        EventKind::Supply => provide_mmap::provide_mmap(s, Tag(a.0), a.1, a.2, a.3),
    }
}
