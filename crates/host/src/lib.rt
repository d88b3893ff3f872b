// The host's five events (01, "Slots and holds"): open, copy, drop, put, ended. A refusal stores nothing.
#![tactic(auto)]

ghost use Rattle.std.specs.Prelude.{◌≡◌};
ghost use Rattle.events.specs.Event.{host_open, host_copy, host_drop, host_ended, on, host_put};
ghost use Rattle.layout.specs.Layout.{plain_of};
ghost use Rattle.layout.specs.Store.{stored_all};
ghost use Rattle.packed.specs.Stores.{has as hasSlot, marks};
ghost use Rattle.step.specs.Does.{answer_of, effects_of, Does};

use answer::{Accepted, Refusal};
use ids::Tag;
use slot::{Phase, Slot};
use step::Step;

// A description that is not open gets its first hold, an outside one.
pub fn open(s: &mut [u64; 2060], description: u64) -> Result<Step, Refusal>
    ensures { Does s.old s.new (host_open description) (answer_of result) (effects_of result) }
{
    let d = ids::description_of(description).ok_or(Refusal::BadArgument)?;
    if hold_words::holds_of(s, d) != 0 {
        return Err(Refusal::BadArgument);
    }
    hold_words::raise_outside(s, d);
    hold_words::raise(s, d);
    Ok(step::answered(Accepted::Done))
}

// One outside hold more.
pub fn copy(s: &mut [u64; 2060], description: u64) -> Result<Step, Refusal>
    ensures { Does s.old s.new (host_copy description) (answer_of result) (effects_of result) }
{
    let d = hold_words::held(s, description).ok_or(Refusal::BadArgument)?;
    let is_full = hold_words::holds_of(s, d) == 65535;
    if is_full {
        return Err(Refusal::TooManyHolds);
    }
    hold_words::raise_outside(s, d);
    hold_words::raise(s, d);
    Ok(step::answered(Accepted::Done))
}

// One outside hold dropped. No effect follows, also of the last.
pub fn drop(s: &mut [u64; 2060], description: u64) -> Result<Step, Refusal>
    ensures { Does s.old s.new (host_drop description) (answer_of result) (effects_of result) }
{
    let d = hold_words::held(s, description).ok_or(Refusal::BadArgument)?;
    hold_words::lower_outside(s, d);
    hold_words::lower(s, d);
    Ok(step::answered(Accepted::Done))
}

// One outside hold moves into an empty handle.
pub fn put(s: &mut [u64; 2060], description: u64, handle: u64) -> Result<Step, Refusal>
    ensures { Does s.old s.new (on (host_put description handle)) (answer_of result) (effects_of result) }
{
    let d = hold_words::held(s, description).ok_or(Refusal::BadArgument)?;
    if 63 < handle {
        return Err(Refusal::BadArgument);
    }
    let k = ids::handle_of(handle);
    if handle_words::held_at(s, k) != 0 {
        return Err(Refusal::BadArgument);
    }
    hold_words::lower_outside(s, d);
    handle_words::put_into(s, k, d);
    Ok(step::answered(Accepted::Done))
}

// Whether a slot is the caller's. A vacant one is nobody's.
fn has(v: Slot, caller: u32) -> bool
    ensures { result ≡ hasSlot caller v }
{
    v.caller == caller && slot::phase_of(v) != Phase::Vacant
}

// Slot i is marked if it is the caller's.
fn mark(s: &mut [u64; 2060], i: u64, caller: u32)
    ensures { s.new ≡ stored_all s.old (marks 1 i (plain_of s.old) caller) }
{
    let n = ids::slot_of(Tag(i));
    let v = slot_load::load(s, n);
    if has(v, caller) {
        let w = slot::caller_ended(v);
        slot_store::put(s, n, w);
    }
}

// The slots that an ended caller has are marked.
pub fn ended(s: &mut [u64; 2060], caller: u32) -> Result<Step, Refusal>
    ensures { Does s.old s.new (host_ended caller) (answer_of result) (effects_of result) }
{
    for i in 0..64 {
        mark(s, i, caller);
    }
    Ok(step::answered(Accepted::Done))
}
