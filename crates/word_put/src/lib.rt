// Words stored among those lent. What lies past their end is not stored.
#![tactic(auto)]

ghost use Rattle.std.specs.Prelude.{◌≡◌, [], ◌∷◌, set};
ghost use Rattle.std.proofs.lemmas.List.Edits.{sets};

// By index, since nothing is known of the other words after a store through `get_mut`.
pub fn put(words: &mut [u64], at: usize, x: u64)
    ensures { words.new ≡ set words.old at x }
{
    if at < words.len() {
        words[at] = x;
    }
}

// Words one behind the other.
pub fn put_all(words: &mut [u64], at: usize, xs: &[u64])
    ensures { words.new ≡ sets words.old at xs.now }
{
    if words.len() <= at {
        return;
    }
    for (i, x) in xs.iter().enumerate() {
        put(words, at + i, *x);
    }
}

// Three words, as an effect has.
pub fn put3(words: &mut [u64], at: usize, a: u64, b: u64, c: u64)
    ensures { words.new ≡ sets words.old at (a ∷ b ∷ c ∷ []) }
{
    put_all(words, at, &[a, b, c]);
}

// Four words.
pub fn put4(words: &mut [u64], at: usize, a: u64, b: u64, c: u64, d: u64)
    ensures { words.new ≡ sets words.old at (a ∷ b ∷ c ∷ d ∷ []) }
{
    put_all(words, at, &[a, b, c, d]);
}
