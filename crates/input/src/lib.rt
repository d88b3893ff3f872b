// Bytes of an input, read into lent ones: for the programs.
#![tactic(auto)]

ghost use Rattle.std.specs.Prelude.{◌<◌, ◌≤◌, length, take, IfOk};
ghost use Rattle.std.specs.Io.KnownBytes.{Consumes, IsAtEnd};

use std::io;
use std::io::{ErrorKind, Read};

// Reads until the lent bytes are full or the input ends, and says how many of them it read: they are the input's next ones, in their
// order. A read that was interrupted is tried again. What the bytes behind them hold is not said, nor what any holds after an error.
pub fn read_full<R: Read>(input: &mut R, into: &mut [u8]) -> io::Result<usize>
    ensures room { IfOk result (λ n. n ≤ length into.new) }
    ensures bytes { IfOk result (λ n. Consumes (R.remaining input.old) (R.remaining input.new) (take n into.new)) }
    ensures end { IfOk result (λ n. n < length into.new → IsAtEnd (R.remaining input.new)) }
{
    // The library has none with this promise: `read_exact` doesn't say how many were read where the input ends early, `io::copy` bounds its
    // count only for readers whose bytes are known, and `read_to_end` takes the heap. The range lets a loop end that a read may not help on.
    let mut done = 0;
    for _ in 0..u64::MAX {
        if into.len() <= done {
            return Ok(done);
        }
        match input.read(&mut into[done..]) {
            Ok(n) => {
                if n == 0 {
                    return Ok(done);
                }
                done += n;
            }
            Err(e) => {
                if e.kind() != ErrorKind::Interrupted {
                    return Err(e);
                }
            }
        }
    }
    Err(io::Error::from(ErrorKind::Interrupted))
}
