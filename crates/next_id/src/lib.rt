// `next_id` (src/scheme/user.rs, line 185): a reserve, a Placeholder of the caller's.
#![tactic(auto)]

ghost use Rattle.step.specs.Does.{answer_of, effects_of, Does};
ghost use Rattle.events.specs.Event.{on, reserve};

use answer::{Accepted, Refusal};
use ids::Tag;
use step::Step;

pub fn next_id(s: &mut [u64; 2060], caller: u32) -> Result<Step, Refusal>
    ensures { Does s.old s.new (on (reserve caller)) (answer_of result) (effects_of result) }
{
    if slot_load::is_full(s) {
        return Err(Refusal::Full);
    }
    let n = slot_load::head(s);
    let v = slot::placeholder(caller);
    slot_store::give(s, v);
    Ok(step::answered(Accepted::Given(Tag(n.0 as u64))))
}
