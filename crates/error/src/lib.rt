// Error words: `Error::mux` and `Error::demux` (syscall/src/error.rs, lines 15 to 29).
#![tactic(auto)]

ghost use Rattle.std.specs.Prelude.{◌≡◌};
ghost use Rattle.answer.specs.Numbered.{number_of};
ghost use Rattle.error.specs.Reference.{as_usize, neg_i32};
ghost use Rattle.error.specs.Errors.{demux_of, mux_of, result_answer};

// Line 81.
pub const EINVAL: u64 = 22;

#[derive(Clone, Copy, Debug, PartialEq, Eq)]
pub struct Error {
    pub errno: i32,
}

// The Rust's `Result<usize>`.
pub type Result = std::result::Result<u64, Error>;

// The low 32 bits of an error word are 2^32 less its errno. Errors are 1 to 132: `STR_ERROR.len()` is 133 (line 193).
const ERROR_1: u32 = 0xffff_ffff;

const ERROR_132: u32 = 0xffff_ff7c;

// `-n`, with the lowest value apart, as 01 asks for: it has no counterpart and stays what it is.
fn negated(n: i32) -> i32
    ensures { result ≡ neg_i32 n }
{
    if n == -0x8000_0000 {
        return n;
    }
    -n
}

// `n as usize`: the sign is extended.
fn as_usize(n: i32) -> u64
    ensures { result ≡ as_usize n }
{
    i64::from(n).cast_unsigned()
}

// 01's number: 0 for a success, else the errno.
pub fn number(res: Result) -> u64
    ensures { result ≡ number_of (result_answer res) }
{
    match res {
        Ok(_) => 0,
        Err(error) => error.number(),
    }
}

impl Error {
    pub fn number(self) -> u64
        ensures { result ≡ as_usize self.errno }
    {
        as_usize(self.errno)
    }

    // `-errno as usize`.
    fn word(self) -> u64
        ensures { result ≡ as_usize (neg_i32 self.errno) }
    {
        as_usize(negated(self.errno))
    }

    pub fn mux(res: Result) -> u64
        ensures { result ≡ mux_of res }
    {
        match res {
            Ok(value) => value,
            Err(error) => error.word(),
        }
    }

    // By cases of the low 32 bits: the error words; the lowest value, whose negation overflows; all else.
    pub fn demux(value: u64) -> Result
        ensures { result ≡ demux_of value }
    {
        let low = (value % 0x1_0000_0000) as u32;
        match low {
            ERROR_132..=ERROR_1 => {
                let errno = (0x1_0000_0000 - (low as u64)) as i32;
                Err(Error { errno })
            }
            0x8000_0000 => Ok(value),
            _ => Ok(value),
        }
    }
}
