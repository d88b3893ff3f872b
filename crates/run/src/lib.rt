// A run as one function: events as bytes in, what each answered and the state at the end as bytes out. Its state is one array of
// words, which each event changes in place.
#![tactic(auto)]

ghost use Rattle.std.specs.Prelude.{◌≡◌, false, List, ℕ, ◌+◌, ◌-◌, ◌*◌, ◌≤◌, ◌<◌, min, length};
ghost use Rattle.std.proofs.lemmas.List.Edits.{sets};
ghost use Rattle.record.specs.Record.{record_of, first_at, second_at, tail_at, tail_of, words_at, next_of, event_named};
ghost use Rattle.events.specs.WellFormed.{WellFormed};
ghost use Rattle.layout.specs.Layout.{plain_of};
ghost use Rattle.run_room.specs.Room.{room_of, needed, left_of};
ghost use Rattle.dispatch.specs.Dispatch.{tells_more};
ghost use Rattle.run.specs.Run.{Told, wake_in, read_in, write_in, Turned, stored_by, run_of, output_of, lent_after, whole_end, end_of, out_after, fx_after};

use ids::Tag;
use record::{EventKind, Record};
use state_bytes::STATE_SIZE;

// The run's own answer: 0, 204 or 205, where it ended or the record begins that is no event, and how many bytes were written.
#[repr(C)]
#[derive(Clone, Copy)]
pub struct RunEnd {
    pub number: u64,
    pub place: u64,
    pub written: u64,
}

// An event with at most one effect and no reply. Its lists stand in the first of the words lent for them.
fn event_turn(
    s: &mut [u64; 2060],
    rec: &[u8],
    r: Record,
    first: &mut [u64],
    second: &mut [u64],
    out: &mut [u8],
) -> usize
    requires { (tells_more r.kind ≡ false) × (255 ≤ length first.old) × (255 ≤ length second.old) }
    ensures by_index { (bs : List ℕ) (lent : ℕ) → Told (plain_of s.old) (plain_of s.new) (event_named r.kind r (words_at rec.now (first_at r) r.first) (words_at rec.now (second_at r) r.second) bs lent) out.old out.new result }
    ensures upper_bound { result ≤ 192 }
{
    record::first_list(rec, r, first);
    record::second_list(rec, r, second);
    let n = usize::from(r.first);
    let m = usize::from(r.second);
    let done = dispatch::event(s, r, &first[..n], &second[..m]);
    outcome_bytes::put_step(out, done)
}

fn wake_turn(s: &mut [u64; 2060], r: Record, out: &mut [u8]) -> usize
    ensures told { Told (plain_of s.old) (plain_of s.new) (wake_in r) out.old out.new result }
    ensures upper_bound { result ≤ 192 }
{
    let a = r.words;
    let kept = call_inner::stored_reply(s, Tag(a.0));
    let done = call_inner::wake(s, Tag(a.0), r.number, a.1, a.2, a.3);
    outcome_bytes::put_woken(out, done, kept.reply, kept.fds)
}

// Straight to where its bytes stand in the output, behind 32 of its own: no more than 8,192 are ever unread.
fn read_turn(s: &mut [u64; 2060], r: Record, out: &mut [u8]) -> usize
    requires { WellFormed (plain_of s.old) × (192 + min r.words.0 8192 ≤ length out.old) }
    ensures told { Told (plain_of s.old) (plain_of s.new) (read_in r) out.old out.new result }
    ensures upper_bound { result ≤ 192 + min r.words.0 8192 }
{
    let a = r.words;
    let n = a.0.min(8192) as usize;
    let k = wait_queue_receive::copied(n, queue_words::unread(s));
    let answer = read::read(s, &mut out[32..32 + n], r.number);
    lent_bytes::put_head(out, answer, k);
    32 + k
}

// The write is lent no more words than there are.
fn write_turn(s: &mut [u64; 2060], rec: &[u8], r: Record, fx: &mut [u64], out: &mut [u8]) -> usize
    requires { WellFormed (plain_of s.old) × (tail_at r + tail_of r ≤ length rec.now) }
    ensures told { Told (plain_of s.old) (plain_of s.new) (write_in r rec.now (length fx.old)) out.old out.new result }
    ensures fx_after { fx.new ≡ sets fx.old 0 (stored_by (plain_of s.old) (write_in r rec.now (length fx.old))) }
    ensures upper_bound { result ≤ 192 + 27 * tail_of r }
{
    let a = r.words;
    let n = a.0.min(fx.len() as u64) as usize;
    let at = record::tail_at(r);
    let k = record::tail(r);
    let done = write::write(s, &mut fx[..n], &rec[at..at + k]);
    let m = done.words;
    let answer = done.answer;
    lent_bytes::put_completed(out, answer, &fx[..m])
}

// The event of a record.
fn turn(
    s: &mut [u64; 2060],
    rec: &[u8],
    r: Record,
    first: &mut [u64],
    second: &mut [u64],
    fx: &mut [u64],
    out: &mut [u8],
) -> usize
    requires { WellFormed (plain_of s.old) × (0 < next_of rec.now) × (r ≡ record_of rec.now) × (255 ≤ length first.old) × (255 ≤ length second.old) × (room_of r ≤ length out.old) }
    ensures { Turned s.old s.new rec.now fx.old fx.new out.old out.new result }
{
    match EventKind::try_from_raw(r.kind) {
        Some(EventKind::Wake) => wake_turn(s, r, out),
        Some(EventKind::Read) => read_turn(s, r, out),
        Some(EventKind::Write) => write_turn(s, rec, r, fx, out),
        _ => event_turn(s, rec, r, first, second, out),
    }
}

// All records up to the end are events, and what they write has room.
fn run_all(scheme: u64, events: &[u8], end: usize, out: &mut [u8], fx: &mut [u64]) -> RunEnd
    requires { (needed events.now ≤ length out.old) × ((end ≡ length events.now - left_of events.now) × (left_of events.now ≡ 0)) }
    ensures value { result ≡ whole_end scheme (length fx.old) events.now }
    ensures out_after { out.new ≡ sets out.old 0 (output_of (run_of scheme (length fx.old) events.now)) }
    ensures fx_after { fx.new ≡ lent_after fx.old (run_of scheme (length fx.old) events.now).turns }
    ensures written_in_bounds { result.written ≤ length out.old }
{
    let mut s = [0; 2060];
    plain::fresh_words(scheme, &mut s);
    let mut first = [0; 255];
    let mut second = [0; 255];
    let mut at = 0;
    let mut j = 0;
    // Each turn goes on by the size of its record, which no range and no iterator does.
    while at < end {
        let r = record::record_at(&events[at..]);
        let size = record::size(r);
        let used = turn(
            &mut s,
            &events[at..],
            r,
            &mut first,
            &mut second,
            fx,
            &mut out[j..],
        );
        j += used;
        at += size;
    }
    state_bytes::put_state(&mut out[j..], &s);
    RunEnd {
        number: 0,
        place: at as u64,
        written: (j + STATE_SIZE) as u64,
    }
}

// Events one after the other, from a fresh state with its scheme number. Writes are lent the first of `fx`.
pub fn run(scheme: u64, events: &[u8], out: &mut [u8], fx: &mut [u64]) -> RunEnd
    ensures value { result ≡ end_of scheme (length fx.old) (length out.old) events.now }
    ensures out_after { out.new ≡ out_after scheme (length fx.old) out.old events.now }
    ensures fx_after { fx.new ≡ fx_after scheme (length out.old) fx.old events.now }
    ensures written_in_bounds { result.written ≤ length out.old }
{
    let w = run_room::walk(events, out.len());
    if w.end < events.len() {
        return RunEnd {
            number: 205,
            place: w.end as u64,
            written: 0,
        };
    }
    if w.fits {
        return run_all(scheme, events, w.end, out, fx);
    }
    RunEnd {
        number: 204,
        place: 0,
        written: 0,
    }
}
