// Map supply (01, "Map supply"; `ProvideMmap` in `handle_parsed`, src/scheme/user.rs, lines 849 to 919): it alone vacates a
// map request's slot. It has no effects.
#![tactic(auto)]

ghost use Rattle.step.specs.Does.{answer_of, effects_of, Does};
ghost use Rattle.events.specs.Event.{on, supply};

use answer::{Accepted, Refusal};
use ids::Tag;
use slot::Phase;
use step::Step;

// The slot is vacated also where its caller has ended.
pub fn provide_mmap(
    s: &mut [u64; 2060],
    tag: Tag,
    offset: u64,
    base: u64,
    count: u64,
) -> Result<Step, Refusal>
    ensures { Does s.old s.new (on (supply tag.0 offset base count)) (answer_of result) (effects_of result) }
{
    if offset % 4096 != 0 {
        return Err(Refusal::Invalid);
    }
    if base % 4096 != 0 {
        return Err(Refusal::Invalid);
    }
    if count != 1 {
        return Err(Refusal::Invalid);
    }
    let n = ids::slot_of(tag);
    let v = slot_load::load(s, n);
    match slot::phase_of(v) {
        Phase::Vacant => Err(Refusal::Invalid),
        Phase::Placeholder => Err(Refusal::BadDescriptor),
        Phase::Waiting => Err(Refusal::Invalid),
        Phase::Responded => Err(Refusal::Invalid),
        Phase::Fmap => {
            slot_store::vacate(s, n);
            if v.ended {
                return Err(Refusal::NoCaller);
            }
            Ok(step::answered(Accepted::Done))
        }
    }
}
