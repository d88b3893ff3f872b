// What a run writes of the state at its end, into bytes that are lent. What lies past the end is not stored.
#![tactic(auto)]

ghost use Rattle.std.specs.Prelude.{◌≡◌, length};
ghost use Rattle.std.proofs.lemmas.List.Edits.{sets};
ghost use Rattle.status.specs.Status.{is_in, word_of};
ghost use Rattle.events.specs.World.{table_of};
ghost use Rattle.layout.specs.Layout.{plain_of};
ghost use Rattle.state_bytes.specs.StateBytes.{status_words, state_bytes, state_size};

use ids::Tag;
use status::Status;

// How many bytes it takes.
pub const STATE_SIZE: usize = 1624;

// From the last slot to the first, so that slot 0 ends in bit 0.
fn status_word(s: &[u64; 2060], which: Status) -> u64
    ensures { result ≡ word_of (is_in which) (table_of (plain_of s.now)).slots }
{
    let mut w = 0;
    for i in (0..64).rev() {
        let v = slot_load::load(s, ids::slot_of(Tag(i)));
        w = w * 2 + status::is_in(v, which);
    }
    w
}

// The five status words, each with its count of ones.
pub fn statuses(s: &[u64; 2060]) -> [u64; 10]
    ensures { result ≡ status_words (table_of (plain_of s.now)) }
{
    let placeholder = status_word(s, Status::Placeholder);
    let outstanding = status_word(s, Status::Outstanding);
    let responded = status_word(s, Status::Responded);
    let fmap = status_word(s, Status::Fmap);
    let orphans = status_word(s, Status::Orphans);
    [
        placeholder,
        u64::from(placeholder.count_ones()),
        outstanding,
        u64::from(outstanding.count_ones()),
        responded,
        u64::from(responded.count_ones()),
        fmap,
        u64::from(fmap.count_ones()),
        orphans,
        u64::from(orphans.count_ones()),
    ]
}

// The state at the end of a run.
pub fn put_state(out: &mut [u8], s: &[u64; 2060])
    ensures out_after { out.new ≡ sets out.old 0 (state_bytes (plain_of s.now)) }
    ensures s_len { length (state_bytes (plain_of s.now)) ≡ state_size }
{
    le_put::put8(out, 0, queue_words::unread(s));
    le_put::put_words(out, 8, &part_words::all(s));
    le_put::put_words(out, 520, &part_words::outside(s));
    le_put::put_words(out, 1032, &part_words::handles(s));
    le_put::put_words(out, 1544, &statuses(s));
}
