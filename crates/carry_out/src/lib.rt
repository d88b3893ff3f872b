// An entry's plan carried out on the words: its effects, the holds that it drops, its handle; and its slot.
#![tactic(auto)]

ghost use Rattle.std.specs.Prelude.{◌≡◌, ◌≤◌, length};
ghost use Rattle.std.proofs.lemmas.List.Edits.{sets};
ghost use Rattle.events.specs.World.{holds_of, handles_of};
ghost use Rattle.layout.specs.Layout.{plain_of};
ghost use Rattle.layout.specs.Store.{stored, stored_all, handles as handlesStore};
ghost use Rattle.packed.specs.Stores.{act_stores};
ghost use Rattle.plan.specs.Plans.{effects_by, handles_by, decision_by};
ghost use Rattle.carry_out.specs.Held.{held_stores};

use closes::Reason;
use ids::SlotNo;
use plan::Plan;
use slot::Act;

// The handle that a plan moves.
fn move_handle(s: &mut [u64; 2060], p: Plan)
    ensures { s.new ≡ stored s.old (handlesStore (handles_by p.change (handles_of (plain_of s.old))).at) }
{
    if let Some(change) = p.change {
        handle_words::set_handle(s, change.handle, change.held);
    }
}

// What becomes of the slot.
pub fn act_on(s: &mut [u64; 2060], n: SlotNo, p: Plan)
    ensures { s.new ≡ stored_all s.old (act_stores p.act n.0 p.slot) }
{
    match p.act {
        Act::Leave => {}
        Act::Store => slot_store::put(s, n, p.slot),
        Act::Vacate => slot_store::vacate(s, n),
    }
}

// A plan carried out but for its slot, its effects stored from word `at` on; says how many words these are.
pub fn carry_out(s: &mut [u64; 2060], p: Plan, fx: &mut [u64], at: usize) -> usize
    ensures value { result ≡ length (effects_by p (holds_of (plain_of s.old))) }
    ensures upper_bound { result ≤ 102 }
    ensures fx_after { fx.new ≡ sets fx.old at (effects_by p (holds_of (plain_of s.old))) }
    ensures s_after { s.new ≡ stored_all s.old (held_stores (decision_by p (holds_of (plain_of s.old)) (handles_of (plain_of s.old)))) }
{
    // where `at` is past the end, the end: nothing is stored from there on either
    let at = at.min(fx.len());
    let first = p.first;
    let a = effect::put(first, fx, at);
    let span = p.span;
    let b = effect::put_unmap(span, fx, at + a);
    let gone = p.gone;
    let follows = closes::is_closing(Reason::Replied);
    let c = hold_words::drop_all(s, gone, follows, fx, at + a + b);
    let own = p.own;
    let d = hold_words::drop_all(s, own, p.closing, fx, at + a + b + 3 * c);
    move_handle(s, p);
    a + b + 3 * c + 3 * d
}
