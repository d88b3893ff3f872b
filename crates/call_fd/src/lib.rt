// The driver's descriptor calls (01, "Descriptor calls"; src/scheme/user.rs, lines 1153 to 1265): a list moved into a
// waiting call, and its list obtained.
#![tactic(auto)]

ghost use Rattle.std.specs.Prelude.{◌≡◌, List as Words, ℕ, length};
ghost use Rattle.events.specs.Event.{on, move, obtain};
ghost use Rattle.layout.specs.Layout.{plain_of};
ghost use Rattle.step.specs.Does.{answer_of, effects_of, Does};
ghost use Rattle.call_fd.specs.Moves.{request_slot, Good, Moves};

use answer::{Accepted, Refusal};
use fd_list::List;
use ids::{SlotNo, Tag};
use slot::Phase;
use step::Step;

// The slot that metadata name, two words: the verb and the request id, all 64 bits of it. Wrong ones name none.
fn request_slot(metadata: &[u64], verb: u64) -> SlotNo
    ensures { result.0 ≡ request_slot verb metadata.now }
{
    if metadata.len() != 2 {
        return ids::slot_of(Tag(64));
    }
    if metadata[0] != verb {
        return ids::slot_of(Tag(64));
    }
    ids::slot_of(Tag(metadata[1]))
}

// A good list, by its request: it replaces the call's, whose holds are dropped, or is itself dropped.
fn moved(s: &mut [u64; 2060], metadata: &[u64], list: List, count: usize) -> Result<Step, Refusal>
    ensures { (ds : Words ℕ) → Good (plain_of s.old) ds list → count ≡ length ds → Moves s.old s.new metadata.now ds (answer_of result) (effects_of result) }
{
    let n = request_slot(metadata, 1);
    let v = slot_load::load(s, n);
    hold_words::take(s, list);
    match slot::phase_of(v) {
        Phase::Vacant => {
            hold_words::discard(s, list);
            Err(Refusal::Invalid)
        }
        Phase::Waiting => {
            let old = v.fds;
            let w = slot::with_fds(v, list);
            hold_words::discard(s, old);
            slot_store::put(s, n, w);
            Ok(step::answered(Accepted::Descriptions(count as u64)))
        }
        _ => {
            hold_words::discard(s, list);
            Err(Refusal::NotFound)
        }
    }
}

// `MoveFd`, verb 1: the list replaces the call's, whose holds are dropped with no close. Refused by the request it drops
// what it brought.
pub fn call_fdwrite(s: &mut [u64; 2060], metadata: &[u64], fds: &[u64]) -> Result<Step, Refusal>
    ensures { Does s.old s.new (on (move metadata.now fds.now)) (answer_of result) (effects_of result) }
{
    let list = hold_words::look(s, &fds[..])?;
    moved(s, metadata, list, fds.len())
}

// `ObtainFd`, verb 0: the call's list becomes outside holds. Inlined where it is exported: what it returns would else be stored in
// parts and read back. In a run `dispatch::obtain` keeps it a function.
#[inline(always)]
pub fn call_fdread(s: &mut [u64; 2060], metadata: &[u64]) -> Result<Step, Refusal>
    ensures { Does s.old s.new (on (obtain metadata.now)) (answer_of result) (effects_of result) }
{
    let n = request_slot(metadata, 0);
    let v = slot_load::load(s, n);
    match slot::phase_of(v) {
        Phase::Vacant => Err(Refusal::Invalid),
        Phase::Waiting => {
            let old = v.fds;
            let count = fd_list::size(old);
            let w = slot::with_fds(v, fd_list::empty());
            hold_words::to_outside(s, old);
            slot_store::put(s, n, w);
            Ok(step::answered(Accepted::Descriptions(count as u64)))
        }
        _ => Err(Refusal::NotFound),
    }
}
