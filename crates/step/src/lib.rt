// The ends that events share: an answer with no effect; an entry of its own queued; a slot given out, or changed, and its entry queued.
#![tactic(auto)]

ghost use Rattle.std.specs.Prelude.{◌≡◌, [], ◌∷◌, Ok, min};
ghost use Rattle.effect.specs.Effect.{effect_words};
ghost use Rattle.events.specs.World.{table_of};
ghost use Rattle.events.specs.Outcome.{said, ok, root_words, root_effect, readable};
ghost use Rattle.flag.specs.Flags.{event_read};
ghost use Rattle.layout.specs.Layout.{plain_of};
ghost use Rattle.layout.specs.Store.{stored_all, put as putStore, give as giveStore, send as sendStore};

use answer::Accepted;
use effect::Effect;
use ids::{SlotNo, Tag};
use schemev2::Sqe;
use slot::Slot;

// What an event that is not refused comes to, with at most one effect.
#[derive(Clone, Copy)]
pub struct Step {
    pub accepted: Accepted,
    pub effect: Option<Effect>,
}

// With no effect.
pub fn answered(accepted: Accepted) -> Step
    ensures answer_value { result.accepted ≡ accepted }
    ensures effect_value { effect_words result.effect ≡ [] }
{
    Step {
        accepted,
        effect: None,
    }
}

// An entry without a slot is queued, with the root's event.
pub fn notified(s: &mut [u64; 2060], e: Sqe, flags: u64) -> Step
    ensures answer_value { said (Ok result.accepted) ≡ ok 0 }
    ensures effect_value { effect_words result.effect ≡ root_effect (plain_of s.old) flags }
    ensures s_after { s.new ≡ stored_all s.old (sendStore e ∷ []) }
{
    let scheme = queue_words::scheme(s);
    queue_words::send(s, e);
    Step {
        accepted: Accepted::Done,
        effect: Some(Effect::Root { scheme, flags }),
    }
}

// The root's event for an entry that was queued.
fn readable(scheme: u64) -> Option<Effect>
    ensures { effect_words result ≡ root_words scheme event_read }
{
    Some(Effect::Root {
        scheme,
        flags: flag::event_read(),
    })
}

// The first of the chain becomes v and its entry is queued, with the root's event.
pub fn begun(s: &mut [u64; 2060], v: Slot, e: Sqe) -> Step
    ensures answer_value { said (Ok result.accepted) ≡ ok (min (table_of (plain_of s.old)).head 64) }
    ensures effect_value { effect_words result.effect ≡ readable (plain_of s.old) }
    ensures s_after { s.new ≡ stored_all s.old (giveStore v ∷ sendStore e ∷ []) }
{
    let n = slot_load::head(s);
    let scheme = queue_words::scheme(s);
    slot_store::give(s, v);
    queue_words::send(s, e);
    Step {
        accepted: Accepted::Given(Tag(n.0 as u64)),
        effect: readable(scheme),
    }
}

// A slot changes and an entry is queued, with the root's event.
pub fn went_on(s: &mut [u64; 2060], n: SlotNo, v: Slot, e: Sqe, accepted: Accepted) -> Step
    ensures answer_value { result.accepted ≡ accepted }
    ensures effect_value { effect_words result.effect ≡ readable (plain_of s.old) }
    ensures s_after { s.new ≡ stored_all s.old (putStore n.0 v ∷ sendStore e ∷ []) }
{
    let scheme = queue_words::scheme(s);
    slot_store::put(s, n, v);
    queue_words::send(s, e);
    Step {
        accepted,
        effect: readable(scheme),
    }
}
