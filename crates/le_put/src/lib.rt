// Little-endian numbers stored into bytes. What lies past the end of the slice is not stored.
#![tactic(auto)]

ghost use Rattle.std.specs.Prelude.{◌≡◌, [], ◌∷◌, set};
ghost use Rattle.std.proofs.lemmas.List.Edits.{sets};
ghost use Rattle.le.specs.Le.{bytes4, bytes8, bytes_of};

pub fn put1(out: &mut [u8], at: usize, b: u8)
    ensures { out.new ≡ set out.old at b }
{
    if at < out.len() {
        out[at] = b;
    }
}

// Bytes from a place on.
fn put_bytes(out: &mut [u8], at: usize, bytes: &[u8])
    ensures { out.new ≡ sets out.old at bytes.now }
{
    if out.len() <= at {
        return;
    }
    for (i, b) in bytes.iter().enumerate() {
        put1(out, at + i, *b);
    }
}

// The low four bytes of a number from a place on.
pub fn put4(out: &mut [u8], at: usize, x: u64)
    ensures { out.new ≡ sets out.old at (bytes4 x) }
{
    put_bytes(out, at, &x.to_le_bytes()[..4]);
}

// The eight bytes of a number from a place on; where all have room, in one look.
pub fn put8(out: &mut [u8], at: usize, x: u64)
    ensures { out.new ≡ sets out.old at (bytes8 x) }
{
    if out.len() <= at {
        return;
    }
    if 8 <= out.len() - at {
        out[at..at + 8].copy_from_slice(&x.to_le_bytes());
        return;
    }
    put_bytes(out, at, &x.to_le_bytes());
}

// Numbers of eight bytes, one behind the other.
pub fn put_words(out: &mut [u8], at: usize, ws: &[u64])
    ensures { out.new ≡ sets out.old at (bytes_of ws.now) }
{
    if out.len() <= at {
        return;
    }
    for (i, w) in ws.iter().enumerate() {
        put8(out, at + 8 * i, *w);
    }
}

// Two of them.
pub fn put_two(out: &mut [u8], at: usize, a: u64, b: u64)
    ensures { out.new ≡ sets out.old at (bytes_of (a ∷ b ∷ [])) }
{
    put_words(out, at, &[a, b]);
}
