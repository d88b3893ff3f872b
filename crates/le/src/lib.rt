// Little-endian numbers read from bytes. A byte past the end of the slice reads as 0.
#![tactic(auto)]

ghost use Rattle.std.specs.Prelude.{◌≡◌, ◌+◌, ◌*◌};
ghost use Rattle.le.specs.Le.{byte as byte_of, half as half_of, word as word_of};

pub fn byte(s: &[u8], k: usize) -> u8
    ensures { result ≡ byte_of s.now k }
{
    s.get(k).copied().unwrap_or(0)
}

pub fn weigh4(a: u8, b: u8, c: u8, d: u8) -> u32
    ensures { result ≡ a + b * 0x100 + c * 0x1_0000 + d * 0x100_0000 }
{
    u32::from_le_bytes([a, b, c, d])
}

pub fn weigh2(low: u32, high: u32) -> u64
    ensures { result ≡ low + high * 0x1_0000_0000 }
{
    u64::from(low) + u64::from(high) * 0x1_0000_0000
}

// The number in the four bytes from place k.
pub fn half(s: &[u8], k: usize) -> u32
    ensures { result ≡ half_of s.now k }
{
    if s.len() <= k {
        return 0;
    }
    match &s[k..] {
        [a, b, c, d, ..] => u32::from_le_bytes([*a, *b, *c, *d]),
        rest => u32::from_le_bytes([byte(rest, 0), byte(rest, 1), byte(rest, 2), byte(rest, 3)]),
    }
}

// The number in the eight bytes from place k.
pub fn word(s: &[u8], k: usize) -> u64
    ensures { result ≡ word_of s.now k }
{
    if s.len() <= k {
        return 0;
    }
    match &s[k..] {
        [a, b, c, d, e, f, g, h, ..] => u64::from_le_bytes([*a, *b, *c, *d, *e, *f, *g, *h]),
        rest => weigh2(half(rest, 0), half(rest, 4)),
    }
}
