// An answer's words, for hosts in other languages and for the run: an enum cannot cross to them. What an answer does not use is 0.
#![tactic(auto)]

ghost use Rattle.std.specs.Prelude.{◌≡◌, false, List as Words, ℕ};
ghost use Rattle.effect.specs.Effect.{effect_of, crossed};
ghost use Rattle.events.specs.Outcome.{Response, reply as replied, said_with, said};
ghost use Rattle.events.specs.Event.{Event};
ghost use Rattle.events.specs.Wake.{response_from};
ghost use Rattle.step.specs.Does.{answer_of, answer_with, effects_of, Does};
ghost use Rattle.answer_words.specs.Words.{words_of, reply_of, fds_of, Settled, SettledWake};

use answer::{Accepted, Answer, Refusal};
use effect::EffectWords;
use fd_list::List;
use slot::Reply;
use step::Step;

// `kind` 0 done, with a value; 1 refused, with its number; 2 would wait; 3 still blocked; 4 a reply, which stands beside it.
#[repr(C)]
#[derive(Clone, Copy)]
pub struct AnswerWords {
    pub kind: u64,
    pub value: u64,
}

// What an event answers, with at most one effect.
#[repr(C)]
#[derive(Clone, Copy)]
pub struct StepWords {
    pub answer: AnswerWords,
    pub effect: EffectWords,
}

#[repr(C)]
#[derive(Clone, Copy)]
pub struct WakeWords {
    pub answer: AnswerWords,
    pub reply: Reply,
    pub fds: List,
    pub effect: EffectWords,
}

pub fn done(value: u64) -> AnswerWords
    ensures { result ≡ record { kind = 0; value = value } }
{
    AnswerWords {
        kind: 0,
        value: value,
    }
}

pub fn refused(number: u64) -> AnswerWords
    ensures { result ≡ record { kind = 1; value = number } }
{
    AnswerWords {
        kind: 1,
        value: number,
    }
}

pub fn words(a: Answer) -> AnswerWords
    ensures { (r : Response) → result ≡ words_of (said_with r a) }
{
    match a {
        Ok(Accepted::Done) => done(0),
        Ok(Accepted::Given(tag)) => done(tag.0),
        Ok(Accepted::Submitted(tag)) => done(tag.0),
        Ok(Accepted::Bytes(n)) => done(n),
        Ok(Accepted::Descriptions(n)) => done(n),
        Ok(Accepted::WouldWait) => AnswerWords { kind: 2, value: 0 },
        Ok(Accepted::Blocked) => AnswerWords { kind: 3, value: 0 },
        Ok(Accepted::Replied) => AnswerWords { kind: 4, value: 0 },
        Err(refusal) => refused(refusal.number()),
    }
}

fn lone(kind: u8, word: u64) -> Reply
    ensures { result ≡ record { kind = kind; extra0 = 0; notice = false; word = word } }
{
    Reply {
        kind: kind,
        extra0: 0,
        notice: false,
        word: word,
    }
}

// A reply's own words: beside a descriptor and beside many there is nothing else.
fn reply_words(r: Reply, fds: List) -> Reply
    ensures { result ≡ reply_of (replied (response_from r fds)) }
{
    match r.kind {
        0 | 1 => r,
        2 => lone(2, r.word),
        _ => lone(3, 0),
    }
}

// Its list: only many descriptors have one, of at most 16.
fn list_words(r: Reply, fds: List) -> List
    ensures { result ≡ fds_of (replied (response_from r fds)) }
{
    if r.kind < 3 {
        return fd_list::empty();
    }
    fd_list::without(fds, 0)
}

// An effect as it is handed over: kind 0 is none, whatever words stand beside it.
fn effect_words(e: EffectWords) -> EffectWords
    ensures { (result ≡ effect_of (crossed e)) × (crossed result ≡ crossed e) }
{
    if e.kind == 0 {
        return EffectWords {
            kind: 0,
            a: 0,
            b: 0,
        };
    }
    e
}

// Of any answer and any effect, whichever function they come from.
pub fn said_words(answer: Answer, effect: EffectWords) -> StepWords
    ensures { (ws xs : Words ℕ) (e : Event) → Does ws xs e (said answer) (crossed effect) → Settled result ws xs e }
{
    StepWords {
        answer: words(answer),
        effect: effect_words(effect),
    }
}

// The reply and its list count where one was handed over.
pub fn woken_words(answer: Answer, effect: EffectWords, r: Reply, fds: List) -> WakeWords
    ensures { (ws xs : Words ℕ) (v : Event) → Does ws xs v (said_with (response_from r fds) answer) (crossed effect) → SettledWake result ws xs v }
{
    let told = words(answer);
    let fx = effect_words(effect);
    let handed_over = told.kind == 4;
    // each chosen apart: a choice between two whole structs copies the bytes between their fields too, in words that overlap
    let reply = if handed_over {
        reply_words(r, fds)
    } else {
        lone(0, 0)
    };
    let list = if handed_over {
        list_words(r, fds)
    } else {
        fd_list::empty()
    };
    WakeWords {
        answer: told,
        reply,
        fds: list,
        effect: fx,
    }
}

// What an event's function returns: its answer, and its effect as it crosses.
fn answer_in(done: Result<Step, Refusal>) -> Answer
    ensures { (r : Response) → said_with r result ≡ answer_with r done }
{
    done.map(|step| step.accepted)
}

fn effect_in(done: Result<Step, Refusal>) -> EffectWords
    ensures { crossed result ≡ effects_of done }
{
    match done {
        Ok(step) => effect::words(step.effect),
        Err(_) => effect::words(None),
    }
}

pub fn step_words(done: Result<Step, Refusal>) -> StepWords
    ensures { (ws xs : Words ℕ) (e : Event) → Does ws xs e (answer_of done) (effects_of done) → Settled result ws xs e }
{
    said_words(answer_in(done), effect_in(done))
}

pub fn wake_words(done: Result<Step, Refusal>, r: Reply, fds: List) -> WakeWords
    ensures { (ws xs : Words ℕ) (v : Event) → Does ws xs v (answer_with (response_from r fds) done) (effects_of done) → SettledWake result ws xs v }
{
    woken_words(answer_in(done), effect_in(done), r, fds)
}
