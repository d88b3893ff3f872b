// The readings of a reply and of an error word, told in words.
#![tactic(auto)]

ghost use Rattle.std.specs.Prelude.{◌≡◌};
ghost use Rattle.answer_words.specs.Words.{words_of};
ghost use Rattle.error.specs.Errors.{demux_of, result_answer};
ghost use Rattle.events.specs.Replies.{into_regular_of, call_generic_of, notice_of, kfdwrite_of, kfdread_of, kopenat_of, kdup_of};
ghost use Rattle.events.specs.Wake.{response_from};
ghost use Rattle.response.specs.Response.{front_answer, opened_as};
ghost use Rattle.reading_step.specs.Opened.{opened_words, read_as};

use answer_words::AnswerWords;
use error::Error;
use fd_list::List;
use response::{Errno, OpenResult};
use slot::Reply;

// With the notice of a completion's kind 5.
#[repr(C)]
#[derive(Clone, Copy)]
pub struct Regular {
    pub answer: AnswerWords,
    pub notice: bool,
}

// `kind` 0 a number of the scheme's own, with its flags; 1 a description; 2 refused, with its number.
#[repr(C)]
#[derive(Clone, Copy)]
pub struct OpenedWords {
    pub kind: u64,
    pub value: u64,
    pub flags: u8,
}

fn front_words(a: Result<u64, Errno>) -> AnswerWords
    ensures { result ≡ words_of (front_answer a) }
{
    match a {
        Ok(w) => answer_words::done(w),
        Err(e) => answer_words::refused(e.0),
    }
}

fn failed(number: u64) -> OpenedWords
    ensures { result ≡ record { kind = 2; value = number; flags = 0 } }
{
    OpenedWords {
        kind: 2,
        value: number,
        flags: 0,
    }
}

fn opened_words(a: Result<OpenResult, Errno>) -> OpenedWords
    ensures { result ≡ opened_words (opened_as a) }
{
    match a {
        Ok(OpenResult::SchemeLocal(w, x)) => OpenedWords {
            kind: 0,
            value: w,
            flags: x,
        },
        Ok(OpenResult::External(d)) => OpenedWords {
            kind: 1,
            value: d,
            flags: 0,
        },
        Err(e) => failed(e.0),
    }
}

pub fn into_regular(reply: Reply, fds: List) -> AnswerWords
    ensures { result ≡ words_of (into_regular_of (response_from reply fds)) }
{
    front_words(response::into_regular(reply, fds))
}

pub fn call_generic(reply: Reply, fds: List) -> Regular
    ensures { (result.answer ≡ words_of (call_generic_of (response_from reply fds))) × (result.notice ≡ notice_of (response_from reply fds)) }
{
    let got = response::call_generic(reply, fds);
    Regular {
        answer: front_words(got.answer),
        notice: got.notice,
    }
}

pub fn kfdwrite(reply: Reply, fds: List) -> AnswerWords
    ensures { result ≡ words_of (kfdwrite_of (response_from reply fds)) }
{
    front_words(response::kfdwrite(reply, fds))
}

pub fn kfdread(reply: Reply, fds: List) -> AnswerWords
    ensures { result ≡ words_of (kfdread_of (response_from reply fds)) }
{
    front_words(response::kfdread(reply, fds))
}

pub fn kopenat(reply: Reply, fds: List) -> OpenedWords
    ensures { result ≡ opened_words (kopenat_of (response_from reply fds)) }
{
    opened_words(response::kopenat(reply, fds))
}

pub fn kdup(reply: Reply, fds: List) -> OpenedWords
    ensures { result ≡ opened_words (kdup_of (response_from reply fds)) }
{
    opened_words(response::kdup(reply, fds))
}

// A result word: its success, or its errno.
pub fn demux(word: u64) -> AnswerWords
    ensures { result ≡ words_of (read_as (result_answer (demux_of word))) }
{
    match Error::demux(word) {
        Ok(w) => answer_words::done(w),
        Err(e) => answer_words::refused(e.number()),
    }
}
