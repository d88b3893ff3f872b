// The listing on each file of data/, one after the other: tests/listing/make.py wrote them and what is to be printed.
#![tactic(auto)]

use std::fs::File;
use std::io;
use std::rt::Files;

// A file that can't be opened is told on standard error, and the next one is taken.
fn list(rt: &(impl Files + Print + Eprint), path: &str) -> io::Result<()> {
    match File::open(rt, path) {
        Ok(mut file) => listing_run::run(rt, &mut file),
        Err(e) => eprintln!(rt; "{path}: {e}"),
    }
}

fn main(rt: HostRuntime) -> io::Result<()> {
    for path in ["empty", "short", "kinds", "flags", "full", "over"] {
        list(&rt, path)?;
    }
    Ok(())
}
