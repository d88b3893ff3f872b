// `call_generic` (src/scheme/user.rs, lines 1384 to 1429) with opcode Call, and `translate_std_fs_call` (line 2048), which
// comes to it with opcode StdFsCall.
#![tactic(auto)]

ghost use Rattle.step.specs.Does.{answer_of, effects_of, Does};
ghost use Rattle.events.specs.Event.{on, generic, stdfs};
ghost use Rattle.call_generic.specs.Generic.{DoesWith};

use answer::Refusal;
use opcode::Opcode;
use step::Step;

fn call_with(
    s: &mut [u64; 2060],
    op: u8,
    caller: u32,
    pid: u64,
    fds: &[u64],
    base: u64,
    len: u64,
    metadata: &[u64],
) -> Result<Step, Refusal>
    ensures { DoesWith op s.old s.new caller pid fds.now base len metadata.now (answer_of result) (effects_of result) }
{
    if fds.len() == 0 {
        return Err(Refusal::Invalid);
    }
    if 2 < fds.len() {
        return Err(Refusal::Invalid);
    }
    if slot_load::is_full(s) {
        return Err(Refusal::Full);
    }
    if queue_words::queue_full(s) {
        return Err(Refusal::QueueFull);
    }
    let n = slot_load::head(s);
    let none = fd_list::empty();
    let v = slot::waiting(caller, none);
    let e = generic_entry::entry(op, n.0 as u32, pid, fds, base, len, metadata);
    Ok(step::begun(s, v, e))
}

pub fn call_generic(
    s: &mut [u64; 2060],
    caller: u32,
    pid: u64,
    fds: &[u64],
    base: u64,
    len: u64,
    metadata: &[u64],
) -> Result<Step, Refusal>
    ensures { Does s.old s.new (on (generic caller pid fds.now base len metadata.now)) (answer_of result) (effects_of result) }
{
    call_with(s, Opcode::Call.raw(), caller, pid, fds, base, len, metadata)
}

// The kind is the low byte of the first of three words.
pub fn translate_std_fs_call(
    s: &mut [u64; 2060],
    caller: u32,
    pid: u64,
    fds: &[u64],
    base: u64,
    len: u64,
    metadata: &[u64],
) -> Result<Step, Refusal>
    ensures { Does s.old s.new (on (stdfs caller pid fds.now base len metadata.now)) (answer_of result) (effects_of result) }
{
    if metadata.len() < 3 {
        return Err(Refusal::Invalid);
    }
    let kind = metadata[0] % 256;
    if generic_entry::is_wrong_kind(kind) {
        return Err(Refusal::NotSupported);
    }
    let three = [kind, metadata[1], metadata[2]];
    call_with(
        s,
        Opcode::StdFsCall.raw(),
        caller,
        pid,
        fds,
        base,
        len,
        &three,
    )
}
