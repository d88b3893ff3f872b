// The listing program: `target/bin/listing < FILE`.
#![tactic(auto)]

use std::io;

fn main(rt: HostRuntime) -> io::Result<()> {
    listing_run::run(&rt, &mut rt.stdin())
}
