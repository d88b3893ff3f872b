// The listing: completions from a reader, at most 64 KiB, and a line for each on standard output.
#![tactic(auto)]

ghost use Rattle.std.specs.Prelude.{◌≡◌, ◌%◌, length, IfOk};

use std::io;
use std::io::Read;

// A line for each whole entry. The bytes left over, 0 to 15, are unread and counted.
fn print_lines(rt: &impl Print, s: &[u8]) -> io::Result<usize>
    ensures { IfOk result (λ n. n ≡ length s.now % 16) }
{
    for (index, entry) in s.chunks_exact(16).enumerate() {
        println!(rt; "{index} {}", listing_line::line_of(entry))?;
    }
    Ok(s.len() % 16)
}

pub fn run(rt: &impl Print, from: &mut impl Read) -> io::Result<()> {
    let mut buffer = [0; 65536];
    let n = input::read_full(from, &mut buffer)?;
    println!(rt; "entry kind tag word value extra")?;
    let left = print_lines(rt, &buffer[..n])?;
    println!(rt; "left {left}")
}
