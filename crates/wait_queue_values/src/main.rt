// 01's values for a read: one entry queued, length 100; two queued, length 100; and what an empty queue answers.
#![tactic(auto)]

use answer::Accepted;
use schemev2::{Args, Sqe};
use std::io;
use wait_queue::QueueLeft;

// The answer, and how many entries are left.
fn show(rt: &impl Print, received: QueueLeft) -> io::Result<()> {
    let left = received.queue.len;
    match received.answer {
        Ok(Accepted::Bytes(n)) => println!(rt; "bytes {n}, left {left}"),
        Ok(_) => println!(rt; "would wait, left {left}"),
        Err(refusal) => println!(rt; "refused {}, left {left}", refusal.number()),
    }
}

// A read that waits, with the last byte of the first entry and the one after it.
fn shown(rt: &impl Print, s: &[u64; 2060]) -> io::Result<()> {
    let mut out = [255; 100];
    show(rt, queue_words::receive(s, &mut out, 0))?;
    println!(rt; "  bytes {} and {}", out[63], out[64])
}

// A non-blocking read.
fn none(rt: &impl Print, s: &[u64; 2060], out: &mut [u8]) -> io::Result<()> {
    show(rt, queue_words::receive(s, out, 0x0004_0000))
}

fn queued(s: &mut [u64; 2060], pid: u64) {
    let e = Sqe {
        opcode: 5,
        sqe_flags: 0,
        tag: 3,
        args: Args(1, 2, 3, 4, 5, 6),
        caller: pid,
    };
    queue_words::send(s, e);
}

// A state's words that are all 0 have an empty queue.
fn main(rt: HostRuntime) -> io::Result<()> {
    let mut s = [0; 2060];
    queued(&mut s, 0x1111_1111_1111_1111);
    shown(&rt, &s)?;
    queued(&mut s, 0x2222_2222_2222_2222);
    shown(&rt, &s)?;
    let empty = [0; 2060];
    shown(&rt, &empty)?;
    let mut nothing = [0; 0];
    none(&rt, &empty, &mut nothing)?;
    let mut short = [0; 1];
    none(&rt, &empty, &mut short)?;
    let mut less = [0; 63];
    none(&rt, &empty, &mut less)?;
    let mut whole = [0; 64];
    none(&rt, &empty, &mut whole)
}
