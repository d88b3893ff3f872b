// Whether the record at the start of a slice is an event, and its size.
#![tactic(auto)]

ghost use Rattle.std.specs.Prelude.{◌≡◌, ◌||◌, ◌<◌, cond, eqb, get_or, unwrap_or, IfSome};
ghost use Rattle.record.specs.Kinds.{number_of};
ghost use Rattle.record.specs.Record.{first_table, second_table, flag_table, number_table, user_table, is_event, next_of};

use record::{EventKind, Record};

// By kind, whether the event has a field; one that it lacks must be 0.
fn has_first_list(kind: EventKind) -> bool
    ensures { get_or first_table (number_of kind) 0 ≡ cond result 255 0 }
{
    matches!(
        kind,
        EventKind::Submit
            | EventKind::Call
            | EventKind::Generic
            | EventKind::StdFs
            | EventKind::Move
            | EventKind::Obtain
            | EventKind::FdWrite
            | EventKind::FdRead
    )
}

fn has_second_list(kind: EventKind) -> bool
    ensures { get_or second_table (number_of kind) 0 ≡ cond result 255 0 }
{
    matches!(
        kind,
        EventKind::Generic | EventKind::StdFs | EventKind::Move | EventKind::FdWrite
    )
}

fn has_flags(kind: EventKind) -> bool
    ensures { get_or flag_table (number_of kind) 0 ≡ cond result 255 0 }
{
    matches!(kind, EventKind::Submit)
}

fn has_number(kind: EventKind) -> bool
    ensures { get_or number_table (number_of kind) 0 ≡ cond result 0xffff_ffff 0 }
{
    matches!(
        kind,
        EventKind::HostEnded
            | EventKind::Reserve
            | EventKind::Submit
            | EventKind::Call
            | EventKind::Generic
            | EventKind::StdFs
            | EventKind::Fmap
            | EventKind::Wake
            | EventKind::Read
            | EventKind::Write
            | EventKind::FdWrite
            | EventKind::FdRead
    )
}

fn has_users(kind: EventKind) -> bool
    ensures { get_or user_table (number_of kind) 0 ≡ cond result 0xffff_ffff 0 }
{
    matches!(
        kind,
        EventKind::Call | EventKind::Fmap | EventKind::FdWrite | EventKind::FdRead
    )
}

// Whether a field that the event lacks is 0.
fn is_allowed(has: bool, field: u32) -> bool
    ensures { result ≡ (has || eqb field 0) }
{
    has || field == 0
}

// Whether a record is an event, all of whose bytes are among the `left` that there are.
fn is_event(r: Record, left: usize) -> bool
    ensures { result ≡ is_event r left }
{
    let Some(kind) = EventKind::try_from_raw(r.kind) else {
        return false;
    };
    // Each test is cheap, so all are made, with no branch between them.
    is_allowed(has_first_list(kind), u32::from(r.first))
        & is_allowed(has_second_list(kind), u32::from(r.second))
        & is_allowed(has_flags(kind), u32::from(r.flags))
        & is_allowed(has_number(kind), r.number)
        & is_allowed(has_users(kind), r.uid)
        & is_allowed(has_users(kind), r.gid)
        & (record::size(r) <= left)
}

// The size of the event at the start of a slice, where there is one.
pub fn next(s: &[u8]) -> Option<usize>
    ensures value { unwrap_or result 0 ≡ next_of s.now }
    ensures some { IfSome result (λ size. 0 < size) }
{
    let r = record::head_at(s);
    is_event(r, s.len()).then_some(record::size(r))
}
