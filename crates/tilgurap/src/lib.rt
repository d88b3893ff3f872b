// The functions that a host in another language calls: each event as a step on the state's words, which the host owns and lends, and
// which are changed in place; the run; the readings; the plain state; error words and entries. A host may lend any words: what is
// promised of a step is the equation alone, and demand 3 holds of words that came from a fresh state. What is lent comes first among
// the arguments, so that a pointer and its length cross in registers.
#![tactic(auto)]

ghost use Rattle.std.specs.Prelude.{◌≡◌, ◌≤◌, Err, length};
ghost use Rattle.std.proofs.lemmas.List.Edits.{sets};
ghost use Rattle.answer.specs.Numbered.{number_of};
ghost use Rattle.answer_words.specs.Words.{words_of, Settled, SettledWake};
ghost use Rattle.error.specs.Errors.{demux_of, mux_of, result_answer};
ghost use Rattle.events.specs.World.{world, table_of};
ghost use Rattle.events.specs.Event.{host_put, reserve, submit, call, fdwrite, fdread, generic, stdfs, fmap, close, detach, wake, read, write, move, obtain, supply, host_open, host_copy, host_drop, host_ended, on, step};
ghost use Rattle.events.specs.Wake.{response_from};
ghost use Rattle.events.specs.Replies.{into_regular_of, call_generic_of, notice_of, kfdwrite_of, kfdread_of, kopenat_of, kdup_of};
ghost use Rattle.layout.specs.Layout.{plain_of, packed_of};
ghost use Rattle.packed.specs.Step.{words_after};
ghost use Rattle.state_bytes.specs.StateBytes.{status_words};
ghost use Rattle.parse_cqe.specs.Parsed.{parsed_of, parsed_answer};
ghost use Rattle.reading_step.specs.Opened.{opened_words, read_as};
ghost use Rattle.run.specs.Run.{end_of, out_after, fx_after};
ghost use Rattle.schemev2.specs.Entry.{sqe_of, cqe_of, sqe_bytes, cqe_bytes};
ghost use Rattle.state.specs.State.{fresh_state};

use answer_words::{AnswerWords, StepWords, WakeWords};
use error::Error;
use fd_list::List;
use ids::Tag;
use reading_step::{OpenedWords, Regular};
use run::RunEnd;
use schemev2::{Args, Cqe, Sqe};
use slot::Reply;
use state::State;
use user_args::CallerCtx;

// The number of this interface. It rises with every change of an export, of a struct that crosses or of the state's words, so that a
// host can tell whether a library is the one that it was written for.
#[unsafe(no_mangle)]
pub extern "C" fn tilgurap_abi() -> u64
    ensures { result ≡ 3 }
{
    3
}

#[unsafe(no_mangle)]
pub extern "C" fn tilgurap_open(words: &mut [u64; 2060], description: u64) -> StepWords
    ensures { Settled result words.old words.new (host_open description) }
{
    answer_words::step_words(host::open(words, description))
}

#[unsafe(no_mangle)]
pub extern "C" fn tilgurap_copy(words: &mut [u64; 2060], description: u64) -> StepWords
    ensures { Settled result words.old words.new (host_copy description) }
{
    answer_words::step_words(host::copy(words, description))
}

#[unsafe(no_mangle)]
pub extern "C" fn tilgurap_drop(words: &mut [u64; 2060], description: u64) -> StepWords
    ensures { Settled result words.old words.new (host_drop description) }
{
    answer_words::step_words(host::drop(words, description))
}

#[unsafe(no_mangle)]
pub extern "C" fn tilgurap_put(words: &mut [u64; 2060], description: u64, handle: u64) -> StepWords
    ensures { Settled result words.old words.new (on (host_put description handle)) }
{
    answer_words::step_words(host::put(words, description, handle))
}

#[unsafe(no_mangle)]
pub extern "C" fn tilgurap_ended(words: &mut [u64; 2060], caller: u32) -> StepWords
    ensures { Settled result words.old words.new (host_ended caller) }
{
    answer_words::step_words(host::ended(words, caller))
}

#[unsafe(no_mangle)]
pub extern "C" fn tilgurap_next_id(words: &mut [u64; 2060], caller: u32) -> StepWords
    ensures { Settled result words.old words.new (on (reserve caller)) }
{
    answer_words::step_words(next_id::next_id(words, caller))
}

#[unsafe(no_mangle)]
pub extern "C" fn tilgurap_submit(
    words: &mut [u64; 2060],
    fds: &[u64],
    tag: Tag,
    caller: u32,
    opcode: u64,
    flags: u8,
    args: Args,
    pid: u64,
) -> StepWords
    ensures { Settled result words.old words.new (on (submit tag.0 caller opcode flags args pid fds.now)) }
{
    answer_words::step_words(submit::submit(words, fds, tag, caller, opcode, flags, args, pid))
}

#[unsafe(no_mangle)]
pub extern "C" fn tilgurap_call(
    words: &mut [u64; 2060],
    fds: &[u64],
    caller: u32,
    opcode: u64,
    args: Args,
    uid: u32,
    gid: u32,
    pid: u64,
) -> StepWords
    ensures { Settled result words.old words.new (on (call caller opcode args uid gid pid fds.now)) }
{
    answer_words::step_words(call::call(
        words,
        fds,
        caller,
        opcode,
        args,
        CallerCtx { pid, uid, gid },
    ))
}

#[unsafe(no_mangle)]
pub extern "C" fn tilgurap_kfdwrite(
    words: &mut [u64; 2060],
    fds: &[u64],
    metadata: &[u64],
    caller: u32,
    number: u64,
    flags: u64,
    uid: u32,
    gid: u32,
    pid: u64,
) -> StepWords
    ensures { Settled result words.old words.new (on (fdwrite caller number flags metadata.now uid gid pid fds.now)) }
{
    answer_words::step_words(kfd::kfdwrite(
        words,
        fds,
        metadata,
        caller,
        number,
        flags,
        CallerCtx { pid, uid, gid },
    ))
}

#[unsafe(no_mangle)]
pub extern "C" fn tilgurap_kfdread(
    words: &mut [u64; 2060],
    metadata: &[u64],
    caller: u32,
    number: u64,
    len: u64,
    flags: u64,
    uid: u32,
    gid: u32,
    pid: u64,
) -> StepWords
    ensures { Settled result words.old words.new (on (fdread caller number len flags metadata.now uid gid pid)) }
{
    answer_words::step_words(kfd::kfdread(
        words,
        metadata,
        caller,
        number,
        len,
        flags,
        CallerCtx { pid, uid, gid },
    ))
}

#[unsafe(no_mangle)]
pub extern "C" fn tilgurap_call_generic(
    words: &mut [u64; 2060],
    fds: &[u64],
    metadata: &[u64],
    caller: u32,
    pid: u64,
    base: u64,
    len: u64,
) -> StepWords
    ensures { Settled result words.old words.new (on (generic caller pid fds.now base len metadata.now)) }
{
    answer_words::step_words(call_generic::call_generic(
        words, caller, pid, fds, base, len, metadata,
    ))
}

#[unsafe(no_mangle)]
pub extern "C" fn tilgurap_translate_std_fs_call(
    words: &mut [u64; 2060],
    fds: &[u64],
    metadata: &[u64],
    caller: u32,
    pid: u64,
    base: u64,
    len: u64,
) -> StepWords
    ensures { Settled result words.old words.new (on (stdfs caller pid fds.now base len metadata.now)) }
{
    answer_words::step_words(call_generic::translate_std_fs_call(
        words, caller, pid, fds, base, len, metadata,
    ))
}

#[unsafe(no_mangle)]
pub extern "C" fn tilgurap_request_fmap(
    words: &mut [u64; 2060],
    caller: u32,
    id: u64,
    pages: u64,
    flags: u64,
    uid: u32,
    gid: u32,
    pid: u64,
) -> StepWords
    ensures { Settled result words.old words.new (on (fmap caller id pages flags uid gid pid)) }
{
    answer_words::step_words(request_fmap::request_fmap(
        words,
        caller,
        id,
        pages,
        flags,
        CallerCtx { pid, uid, gid },
    ))
}

#[unsafe(no_mangle)]
pub extern "C" fn tilgurap_close(words: &mut [u64; 2060], id: u64) -> StepWords
    ensures { Settled result words.old words.new (on (close id)) }
{
    answer_words::step_words(close::close(words, id))
}

#[unsafe(no_mangle)]
pub extern "C" fn tilgurap_detach(words: &mut [u64; 2060], id: u64, pid: u64) -> StepWords
    ensures { Settled result words.old words.new (on (detach id pid)) }
{
    answer_words::step_words(close::detach(words, id, pid))
}

#[unsafe(no_mangle)]
pub extern "C" fn tilgurap_wake(
    words: &mut [u64; 2060],
    tag: Tag,
    caller: u32,
    killed: u64,
    base: u64,
    count: u64,
) -> WakeWords
    ensures { SettledWake result words.old words.new (on (wake tag.0 caller killed base count)) }
{
    let kept = call_inner::stored_reply(words, tag);
    let done = call_inner::wake(words, tag, caller, killed, base, count);
    answer_words::wake_words(done, kept.reply, kept.fds)
}

#[unsafe(no_mangle)]
pub extern "C" fn tilgurap_read(words: &mut [u64; 2060], out: &mut [u8], flags: u32) -> AnswerWords
    ensures value { result ≡ words_of (step (plain_of words.old) (on (read (length out.old) flags))).answer }
    ensures words_after { words.new ≡ words_after words.old (on (read (length out.old) flags)) }
    ensures out_after { out.new ≡ sets out.old 0 (step (plain_of words.old) (on (read (length out.old) flags))).bytes }
{
    answer_words::words(read::read(words, out, flags))
}

// So many of the lent words hold effects, three to each.
#[repr(C)]
#[derive(Clone, Copy)]
pub struct Completed {
    pub answer: AnswerWords,
    pub words: usize,
}

#[unsafe(no_mangle)]
pub extern "C" fn tilgurap_write(words: &mut [u64; 2060], fx: &mut [u64], bytes: &[u8]) -> Completed
    ensures answer_value { result.answer ≡ words_of (step (plain_of words.old) (on (write (length fx.old) bytes.now))).answer }
    ensures words_after { words.new ≡ words_after words.old (on (write (length fx.old) bytes.now)) }
    ensures fx_after { fx.new ≡ sets fx.old 0 (step (plain_of words.old) (on (write (length fx.old) bytes.now))).effects }
    ensures words_value { result.words ≡ length (step (plain_of words.old) (on (write (length fx.old) bytes.now))).effects }
{
    let done = write::write(words, fx, bytes);
    Completed {
        answer: answer_words::words(done.answer),
        words: done.words,
    }
}

#[unsafe(no_mangle)]
pub extern "C" fn tilgurap_call_fdwrite(
    words: &mut [u64; 2060],
    metadata: &[u64],
    fds: &[u64],
) -> StepWords
    ensures { Settled result words.old words.new (on (move metadata.now fds.now)) }
{
    answer_words::step_words(call_fd::call_fdwrite(words, metadata, fds))
}

#[unsafe(no_mangle)]
pub extern "C" fn tilgurap_call_fdread(words: &mut [u64; 2060], metadata: &[u64]) -> StepWords
    ensures { Settled result words.old words.new (on (obtain metadata.now)) }
{
    answer_words::step_words(call_fd::call_fdread(words, metadata))
}

#[unsafe(no_mangle)]
pub extern "C" fn tilgurap_provide_mmap(
    words: &mut [u64; 2060],
    tag: Tag,
    offset: u64,
    base: u64,
    count: u64,
) -> StepWords
    ensures { Settled result words.old words.new (on (supply tag.0 offset base count)) }
{
    answer_words::step_words(provide_mmap::provide_mmap(words, tag, offset, base, count))
}

#[unsafe(no_mangle)]
pub extern "C" fn tilgurap_into_regular(reply: Reply, fds: List) -> AnswerWords
    ensures { result ≡ words_of (into_regular_of (response_from reply fds)) }
{
    reading_step::into_regular(reply, fds)
}

#[unsafe(no_mangle)]
pub extern "C" fn tilgurap_read_call_generic(reply: Reply, fds: List) -> Regular
    ensures { (result.answer ≡ words_of (call_generic_of (response_from reply fds))) × (result.notice ≡ notice_of (response_from reply fds)) }
{
    reading_step::call_generic(reply, fds)
}

#[unsafe(no_mangle)]
pub extern "C" fn tilgurap_read_kfdwrite(reply: Reply, fds: List) -> AnswerWords
    ensures { result ≡ words_of (kfdwrite_of (response_from reply fds)) }
{
    reading_step::kfdwrite(reply, fds)
}

#[unsafe(no_mangle)]
pub extern "C" fn tilgurap_read_kfdread(reply: Reply, fds: List) -> AnswerWords
    ensures { result ≡ words_of (kfdread_of (response_from reply fds)) }
{
    reading_step::kfdread(reply, fds)
}

#[unsafe(no_mangle)]
pub extern "C" fn tilgurap_kopenat(reply: Reply, fds: List) -> OpenedWords
    ensures { result ≡ opened_words (kopenat_of (response_from reply fds)) }
{
    reading_step::kopenat(reply, fds)
}

#[unsafe(no_mangle)]
pub extern "C" fn tilgurap_kdup(reply: Reply, fds: List) -> OpenedWords
    ensures { result ≡ opened_words (kdup_of (response_from reply fds)) }
{
    reading_step::kdup(reply, fds)
}

#[unsafe(no_mangle)]
pub extern "C" fn tilgurap_demux(word: u64) -> AnswerWords
    ensures { result ≡ words_of (read_as (result_answer (demux_of word))) }
{
    reading_step::demux(word)
}

#[unsafe(no_mangle)]
pub extern "C" fn tilgurap_run(scheme: u64, events: &[u8], out: &mut [u8], fx: &mut [u64]) -> RunEnd
    ensures value { result ≡ end_of scheme (length fx.old) (length out.old) events.now }
    ensures out_after { out.new ≡ out_after scheme (length fx.old) out.old events.now }
    ensures fx_after { fx.new ≡ fx_after scheme (length out.old) fx.old events.now }
    ensures written_in_bounds { result.written ≤ length out.old }
{
    run::run(scheme, events, out, fx)
}

// The plain state: a fresh one; the one in some words, the queue's words stored in those lent; and the words of one. The first words
// of a host are those of a fresh state and a queue of zeros.
#[unsafe(no_mangle)]
pub extern "C" fn tilgurap_fresh(scheme: u64) -> State
    ensures { result ≡ fresh_state scheme }
{
    state::fresh(scheme)
}

#[unsafe(no_mangle)]
pub extern "C" fn tilgurap_plain(words: &[u64; 2060], queue: &mut [u64; 1024]) -> State
    ensures { world result queue.new ≡ plain_of words.now }
{
    plain::plain(words, queue)
}

#[unsafe(no_mangle)]
pub extern "C" fn tilgurap_packed(s: State, queue: &[u64; 1024], words: &mut [u64; 2060])
    ensures { words.new ≡ packed_of (world s queue.now) }
{
    plain::packed(s, queue, words);
}

// The five status words, each with its count of ones: Placeholder, outstanding, Responded, Fmap, orphans.
#[unsafe(no_mangle)]
pub extern "C" fn tilgurap_status(words: &[u64; 2060], out: &mut [u64; 10])
    ensures { out.new ≡ status_words (table_of (plain_of words.now)) }
{
    *out = state_bytes::statuses(words);
}

// An errno as a result word.
#[unsafe(no_mangle)]
pub extern "C" fn tilgurap_mux_error(errno: i32) -> u64
    ensures { result ≡ mux_of (Err (record { errno = errno })) }
{
    Error::mux(Err(Error { errno }))
}

// Entries from and to bytes.
#[unsafe(no_mangle)]
pub extern "C" fn tilgurap_sqe(bytes: &[u8]) -> Sqe
    ensures { result ≡ sqe_of bytes.now }
{
    decode::sqe(bytes)
}

#[unsafe(no_mangle)]
pub extern "C" fn tilgurap_cqe(bytes: &[u8]) -> Cqe
    ensures { result ≡ cqe_of bytes.now }
{
    decode::cqe(bytes)
}

#[unsafe(no_mangle)]
pub extern "C" fn tilgurap_sqe_bytes(e: Sqe, out: &mut [u8; 64])
    ensures { out.new ≡ sqe_bytes e }
{
    *out = encode::sqe_bytes(e);
}

#[unsafe(no_mangle)]
pub extern "C" fn tilgurap_cqe_bytes(e: Cqe, out: &mut [u8; 16])
    ensures { out.new ≡ cqe_bytes e }
{
    *out = encode::cqe_bytes(e);
}

// 0, or the number that an entry is refused with before its tag is looked at.
#[unsafe(no_mangle)]
pub extern "C" fn tilgurap_parse_cqe(e: Cqe) -> u64
    ensures { result ≡ number_of (parsed_answer (parsed_of e)) }
{
    parse_cqe::number(parse_cqe::parse_cqe(e))
}
