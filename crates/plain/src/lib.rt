// The state as a struct, read from its words, and the words of such a state; the one is the inverse of the other (specs, Inverse).
#![tactic(auto)]

ghost use Rattle.std.specs.Prelude.{◌≡◌, length, replicate};
ghost use Rattle.std.proofs.lemmas.List.Edits.{sets};
ghost use Rattle.events.specs.World.{world, table_of};
ghost use Rattle.layout.specs.Layout.{slot_place, slots_words, plain_of, packed_of};
ghost use Rattle.packed.specs.Step.{fresh_words};

use ids::Tag;
use slot::Slot;
use state::State;

// Each slot is read into its place, by index: nothing is known of the slots after a loop over `iter_mut`.
fn slots(s: &[u64; 2060], a: &mut [Slot; 64])
    ensures { a.new ≡ (table_of (plain_of s.now)).slots }
{
    for i in 0..64 {
        a[i] = slot_load::load(s, ids::slot_of(Tag(i as u64)));
    }
}

// The queue's words are stored in those lent. Each part is read into its place in the state: one made by itself would be copied, on
// the stack.
pub fn plain(s: &[u64; 2060], queue: &mut [u64; 1024]) -> State
    ensures { world result queue.new ≡ plain_of s.now }
{
    part_words::queue(s, queue);
    let mut st = state::fresh(queue_words::scheme(s));
    st.driver.handles.at = part_words::handles(s);
    st.driver.queue.first = queue_words::first(s);
    st.driver.queue.len = queue_words::unread(s);
    slots(s, &mut st.table.slots);
    st.table.next = part_words::chain(s);
    st.table.head = slot_load::head_word(s);
    st.table.holds.holds = part_words::all(s);
    st.table.holds.outside = part_words::outside(s);
    st
}

fn put_slots(s: &mut [u64; 2060], slots: &[Slot; 64])
    ensures { s.new ≡ sets s.old (slot_place 0) (slots_words slots.now) }
{
    for i in 0..64 {
        slot_store::put(s, ids::slot_of(Tag(i as u64)), slots[i]);
    }
}

// Each word is stored, whatever it was before.
pub fn packed(st: State, queue: &[u64; 1024], s: &mut [u64; 2060])
    ensures { s.new ≡ packed_of (world st queue.now) }
{
    let table = &st.table;
    let driver = &st.driver;
    put_slots(s, &table.slots);
    part_words::put_chain(s, &table.next);
    part_words::put_head(s, table.head);
    part_words::put_all(s, &table.holds.holds);
    part_words::put_outside(s, &table.holds.outside);
    part_words::put_driver(s, driver.scheme, driver.queue.first, driver.queue.len);
    part_words::put_handles(s, &driver.handles.at);
    part_words::put_queue(s, queue);
}

// The words of a fresh state, its queue's words 0.
pub fn fresh_words(scheme: u64, s: &mut [u64; 2060])
    ensures { s.new ≡ fresh_words scheme (replicate 1024 0) }
{
    let fresh = state::fresh(scheme);
    let queue = [0; 1024];
    packed(fresh, &queue, s);
}
