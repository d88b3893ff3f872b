// What an event answers: one case for each outcome, for all events. In 01's terms they stand in two tables: `refusal_number`
// (specs/Numbered.antt) for the refusals, `said_with` (events/specs/Outcome.antt) for each kind of answer and its value.
#![tactic(auto)]

ghost use Rattle.std.specs.Prelude.{◌≡◌};
ghost use Rattle.answer.specs.Numbered.{refusal_number};

use ids::Tag;

// What an event that is not refused comes to.
#[derive(Clone, Copy, Debug, PartialEq, Eq)]
pub enum Accepted {
    Done,
    // a slot was given out: reserve, `call`, map request
    Given(Tag),
    Submitted(Tag),
    // of a read those copied, of a write those taken
    Bytes(u64),
    // moved or obtained
    Descriptions(u64),
    // an empty queue is read
    WouldWait,
    // a wake: the call still waits, or its reply, which stands beside the answer, is handed over
    Blocked,
    Replied,
}

// Why an event is refused.
#[derive(Clone, Copy, Debug, PartialEq, Eq)]
pub enum Refusal {
    // numbers of the Rust's own
    NotFound,
    NoCaller,
    Interrupted,
    Again,
    Invalid,
    BadDescriptor,
    NotSupported,
    // the layer's own, 201 to 207
    NotYours,
    Full,
    QueueFull,
    ShortWords,
    BadArgument,
    TooManyFds,
    TooManyHolds,
}

pub type Answer = Result<Accepted, Refusal>;

impl Refusal {
    // 01's number.
    pub fn number(self) -> u64
        ensures { result ≡ refusal_number self }
    {
        match self {
            Refusal::NotFound => 2,
            Refusal::NoCaller => 3,
            Refusal::Interrupted => 4,
            Refusal::Again => 11,
            Refusal::Invalid => 22,
            Refusal::BadDescriptor => 77,
            Refusal::NotSupported => 95,
            Refusal::NotYours => 201,
            Refusal::Full => 202,
            Refusal::QueueFull => 203,
            Refusal::ShortWords => 204,
            Refusal::BadArgument => 205,
            Refusal::TooManyFds => 206,
            Refusal::TooManyHolds => 207,
        }
    }
}
