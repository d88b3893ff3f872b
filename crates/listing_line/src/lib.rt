// The fields of one line of the listing (01, "Marked values").
#![tactic(auto)]

ghost use Rattle.std.specs.Prelude.{◌≡◌, Some};
ghost use Rattle.listing_line.specs.Line.{line_of, shown_result, shown_of};
ghost use Rattle.listing_line.specs.Text.{word_text, line_text};
ghost use Rattle.schemev2.specs.Entry.{cqe_of};

use parse_cqe::{CqeError, ParsedCqe};
use std::fmt;

#[derive(Clone, Copy, Debug, PartialEq, Eq)]
pub enum Word {
    Ok,
    Err,
    Bad,
    Num,
}

impl fmt::Display for Word {
    ghost output = { λ w. Some (word_text w) };

    fn fmt<W: fmt::Write>(&self, f: &mut fmt::Formatter<W>) -> fmt::Result {
        let text = match self {
            Word::Ok => "ok",
            Word::Err => "err",
            Word::Bad => "bad",
            Word::Num => "num",
        };
        write!(f, "{text}")
    }
}

#[derive(Clone, Copy)]
pub struct Shown {
    pub word: Word,
    pub value: u64,
}

#[derive(Clone, Copy)]
pub struct Line {
    pub kind: u8,
    pub tag: u32,
    pub shown: Shown,
    pub extra: u32,
}

// Its fields in their order, a space between two.
impl fmt::Display for Line {
    ghost output = { λ l. Some (line_text l) };

    fn fmt<W: fmt::Write>(&self, f: &mut fmt::Formatter<W>) -> fmt::Result {
        write!(
            f,
            "{} {} {} {} {}",
            self.kind, self.tag, self.shown.word, self.shown.value, self.extra
        )
    }
}

fn shown_result(res: error::Result) -> Shown
    ensures { result ≡ shown_result res }
{
    match res {
        Ok(value) => Shown {
            word: Word::Ok,
            value,
        },
        Err(error) => Shown {
            word: Word::Err,
            value: error.number(),
        },
    }
}

// The word and the value: of a regular response its result, of a refused entry its number, else the result word.
fn shown_parsed(parsed: Result<ParsedCqe, CqeError>, outcome: u64) -> Shown
    ensures { result ≡ shown_of parsed outcome }
{
    match parsed {
        Ok(ParsedCqe::RegularResponse { res, .. }) => shown_result(res),
        Ok(ParsedCqe::RespondAndNotifyOnDetach { res, .. }) => shown_result(res),
        Ok(_) => Shown {
            word: Word::Num,
            value: outcome,
        },
        Err(_) => Shown {
            word: Word::Bad,
            value: parse_cqe::number(parsed),
        },
    }
}

// The line of the entry that stands at the start of the slice.
pub fn line_of(s: &[u8]) -> Line
    ensures { result ≡ line_of (cqe_of s.now) }
{
    let e = decode::cqe(s);
    let shown = shown_parsed(parse_cqe::parse_cqe(e), e.result);
    Line {
        kind: e.kind(),
        tag: e.tag,
        shown: shown,
        extra: e.extra(),
    }
}
