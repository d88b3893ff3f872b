// The recorded runs in data/, each run again and compared byte for byte with what was recorded: docs/RECORDED.md.
#![tactic(auto)]

ghost use Rattle.std.specs.Prelude.{◌≡◌, ℕ, ◌%◌, length, OnOk};
ghost use Rattle.le.specs.Le.{word as word_of};
ghost use Rattle.record.specs.Record.{decoded};
ghost use Rattle.recorded.specs.Recorded.{check_of, same_of, compared_of, as_recorded_of, Recorded};

use answer::Refusal;
use run::RunEnd;
use state_bytes::STATE_SIZE;
use std::fs::File;
use std::io::Read;
use std::rt::Files;
use std::{fmt, io};
use step::Step;

// A file's runs so far, each as recorded, and the check number of its bytes.
#[derive(Clone, Copy)]
struct Tally {
    runs: u64,
    events: u64,
    event_bytes: u64,
    answer_bytes: u64,
    check: u64,
}

// How a run ended, and how many of its bytes are as recorded, up to the first that is not.
#[derive(Clone, Copy)]
struct Compared {
    end: RunEnd,
    same: usize,
}

// Why a file's runs are not all as recorded. `run` counts those before.
#[derive(Drop)]
enum Fault {
    NoCount,
    CutOff {
        run: u64,
    },
    Differs {
        run: u64,
        compared: Compared,
        recorded: usize,
    },
    More,
    Input(io::Error),
}

// What each run of a file is read into and run in, lent: the arrays are large.
#[derive(Drop)]
struct Buffers<'a> {
    events: &'a mut [u8],
    recorded: &'a mut [u8],
    out: &'a mut [u8],
    fx: &'a mut [u64],
}

impl fmt::Display for Tally {
    fn fmt<W: fmt::Write>(&self, f: &mut fmt::Formatter<W>) -> fmt::Result {
        write!(
            f,
            "runs {}, events {}, bytes of events {}, bytes of answers {}, all as recorded; check {}",
            self.runs, self.events, self.event_bytes, self.answer_bytes, self.check
        )
    }
}

impl fmt::Display for Fault {
    fn fmt<W: fmt::Write>(&self, f: &mut fmt::Formatter<W>) -> fmt::Result {
        match self {
            Fault::NoCount => write!(f, "has no count of runs"),
            Fault::CutOff { run } => write!(f, "run {run} is cut off or too long"),
            Fault::Differs {
                run,
                compared,
                recorded,
            } => write!(
                f,
                "run {run} differs: number {}, place {}, bytes written {}, recorded {recorded}, the same up to byte {}",
                compared.end.number, compared.end.place, compared.end.written, compared.same
            ),
            Fault::More => write!(f, "has bytes behind its last run"),
            Fault::Input(e) => write!(f, "{e}"),
        }
    }
}

impl From<io::Error> for Fault {
    fn from(e: io::Error) -> Self {
        Fault::Input(e)
    }
}

// The bytes as the digits of one number to the base 256, modulo a prime: a single changed byte always changes it.
fn check_number(before: u64, bytes: &[u8]) -> u64
    ensures { result ≡ check_of (before % 4_294_967_291) bytes.now }
{
    let mut check = before % 4_294_967_291;
    for b in bytes {
        check = (check * 256 + u64::from(*b)) % 4_294_967_291;
    }
    check
}

// How many bytes are the same, up to the first that differs or the end of one of the two.
fn same(a: &[u8], b: &[u8]) -> usize
    ensures { result ≡ same_of a.now b.now }
{
    a.iter().zip(b).take_while(|(x, y)| x == y).count()
}

// How many events the bytes hold, up to the first record that is none.
fn count_events(events: &[u8]) -> usize
    ensures { (lent : ℕ) → result ≡ length (decoded lent events.now).events }
{
    // No `for`, and `n` counts no index: each turn steps by the size of the record that it finds, so an iterator would have to be written first.
    let mut n = 0;
    let mut at = 0;
    while let Some(size) = record_next::next(&events[at..]) {
        n += 1;
        at += size;
    }
    n
}

fn compare(scheme: u64, events: &[u8], recorded: &[u8], out: &mut [u8], fx: &mut [u64]) -> Compared
    ensures { result ≡ compared_of scheme (length fx.old) (length out.old) events.now recorded.now }
{
    let end = run::run(scheme, events, out, fx);
    let n = end.written as usize;
    Compared {
        end: end,
        same: same(&out[..n], recorded),
    }
}

// Every event was run, and all that was recorded was written and nothing else.
fn as_recorded(c: Compared, events: usize, recorded: usize) -> bool
    ensures { result ≡ as_recorded_of c events recorded }
{
    c.end.number == 0
        && c.end.place == events as u64
        && c.end.written == recorded as u64
        && c.same == recorded
}

// One run more, its bytes already read.
fn replay(
    t: Tally,
    head: &[u8],
    events: &[u8],
    recorded: &[u8],
    out: &mut [u8],
    fx: &mut [u64],
) -> Result<Tally, Fault>
    ensures { OnOk result (Recorded (word_of head.now 0) (length fx.old) events.now recorded.now) }
{
    let compared = compare(le::word(head, 0), events, recorded, out, fx);
    if !as_recorded(compared, events.len(), recorded.len()) {
        return Err(Fault::Differs {
            run: t.runs,
            compared: compared,
            recorded: recorded.len(),
        });
    }
    Ok(Tally {
        runs: t.runs.wrapping_add(1),
        events: t.events.wrapping_add(count_events(events) as u64),
        event_bytes: t.event_bytes.wrapping_add(events.len() as u64),
        answer_bytes: t.answer_bytes.wrapping_add(recorded.len() as u64),
        check: check_number(check_number(check_number(t.check, head), events), recorded),
    })
}

// All that is lent is read, or the run is cut off.
fn fill(file: &mut impl Read, into: &mut [u8], run: u64) -> Result<(), Fault> {
    if input::read_full(file, into)? < into.len() {
        return Err(Fault::CutOff { run: run });
    }
    Ok(())
}

// One run: scheme number and the two lengths, the events, what was recorded.
fn read_run(t: Tally, file: &mut impl Read, lent: &mut Buffers) -> Result<Tally, Fault> {
    let run = t.runs;
    let mut head = [0; 24];
    fill(file, &mut head, run)?;
    let n = le::word(&head, 8);
    let m = le::word(&head, 16);
    if n > lent.events.len() as u64 || m > lent.recorded.len() as u64 {
        return Err(Fault::CutOff { run: run });
    }
    let events = &mut lent.events[..n as usize];
    let recorded = &mut lent.recorded[..m as usize];
    fill(file, events, run)?;
    fill(file, recorded, run)?;
    replay(t, &head, events, recorded, lent.out, lent.fx)
}

// A file: how many runs, then these, and nothing behind them.
fn replay_file(file: &mut impl Read) -> Result<Tally, Fault> {
    let mut count = [0; 8];
    if input::read_full(file, &mut count)? < 8 {
        return Err(Fault::NoCount);
    }
    let mut events = [0; 65536];
    let mut recorded = [0; 65536];
    let mut out = [0; 262144];
    let mut fx = [0; 8192];
    let mut lent = Buffers {
        events: &mut events,
        recorded: &mut recorded,
        out: &mut out,
        fx: &mut fx,
    };
    let mut t = Tally {
        runs: 0,
        events: 0,
        event_bytes: 0,
        answer_bytes: 0,
        check: check_number(0, &count),
    };
    for _ in 0..le::word(&count, 0) {
        t = read_run(t, file, &mut lent)?;
    }
    let mut more = [0; 1];
    if input::read_full(file, &mut more)? != 0 {
        return Err(Fault::More);
    }
    Ok(t)
}

// A file that can't be opened is told on standard error, and the next one is taken.
fn replay_named(rt: &(impl Files + Print + Eprint), name: &str) -> io::Result<()> {
    match File::open(rt, name) {
        Ok(mut file) => {
            print!(rt; "{name}:")?;
            match replay_file(&mut file) {
                Ok(tally) => println!(rt; " {tally}"),
                Err(Fault::Input(e)) => Err(e),
                Err(fault) => println!(rt; " {fault}"),
            }
        }
        Err(e) => eprintln!(rt; "{name}: {e}"),
    }
}

// Description 5 is opened, copied, put into handle 0 and copied on until that is refused, no more than 65,537 times.
fn to_limit(s: &mut [u64; 2060]) -> Result<Step, Refusal> {
    host::open(s, 5)?;
    host::copy(s, 5)?;
    host::put(s, 5, 0)?;
    for _ in 0..65_536 {
        host::copy(s, 5)?;
    }
    host::copy(s, 5)
}

// 01's 207, which no file has, since a run to it has 65,536 events.
fn hold_limit(rt: &impl Print) -> io::Result<()> {
    let mut s = [0; 2060];
    plain::fresh_words(7, &mut s);
    let answer = answer_words::step_words(to_limit(&mut s)).answer;
    let mut told = [0; STATE_SIZE];
    state_bytes::put_state(&mut told, &s);
    let holds = le::word(&told, 48);
    let outside = le::word(&told, 560);
    let handle = le::word(&told, 1032);
    println!(rt;
        "207: kind {} number {}, holds {holds}, outside {outside}, handle 0 {handle}",
        answer.kind, answer.value
    )
}

fn main(rt: HostRuntime) -> io::Result<()> {
    for name in ["rust_scripts", "rust_drawn", "limits_of_01"] {
        replay_named(&rt, name)?;
    }
    hold_limit(&rt)
}
