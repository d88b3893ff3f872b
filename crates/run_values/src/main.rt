// 01's "15 bytes written: 0", and the run of the records on standard input: its own answer as a line, then what it wrote.
#![tactic(auto)]

use std::io;

fn fifteen(rt: &impl Print) -> io::Result<()> {
    let mut s = [0; 2060];
    plain::fresh_words(7, &mut s);
    let bytes = [9; 15];
    let mut fx = [0; 54];
    let r = write::write(&mut s, &mut fx, &bytes);
    let answer = answer_words::words(r.answer);
    println!(rt; "15 bytes written: {}, kind {}", answer.value, answer.kind)
}

fn show(rt: &impl Print, events: &[u8], out: &mut [u8], fx: &mut [u64]) -> io::Result<usize> {
    let end = run::run(7, events, out, fx);
    println!(rt;
        "number {}, place {}, written {}",
        end.number, end.place, end.written
    )?;
    rt.write_all(&out[..end.written as usize])?;
    Ok(end.place as usize)
}

// Where a record is no event, those before it by themselves.
fn show_events(rt: &impl Print, events: &[u8], out: &mut [u8], fx: &mut [u64]) -> io::Result<()> {
    let place = show(rt, events, out, fx)?;
    if place < events.len() {
        show(rt, &events[..place], out, fx)?;
    }
    Ok(())
}

fn main(rt: HostRuntime) -> io::Result<()> {
    fifteen(&rt)?;
    let mut records = [0; 65536];
    let n = input::read_full(&mut rt.stdin(), &mut records)?;
    let mut out = [0; 65536];
    let mut fx = [0; 1024];
    show_events(&rt, &records[..n], &mut out, &mut fx)
}
