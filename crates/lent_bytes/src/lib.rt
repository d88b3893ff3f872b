// What a run writes of a read before the bytes that it stored, and of a write, with the words of its effects, into bytes that are
// lent. What lies past the end is not stored.
#![tactic(auto)]

ghost use Rattle.std.specs.Prelude.{◌≡◌, [], ◌∷◌, ◌≤◌, ◌+◌, ◌*◌, length};
ghost use Rattle.std.proofs.lemmas.List.Edits.{sets};
ghost use Rattle.le.specs.Le.{bytes_of};
ghost use Rattle.events.specs.Outcome.{said};
ghost use Rattle.answer_words.specs.Words.{words_of};
ghost use Rattle.outcome_bytes.specs.Output.{told};

use answer::Answer;

// What stands before the bytes of a read, which hands nothing over: the two words of its answer, that it has no effects, and how
// many bytes there are.
pub fn put_head(out: &mut [u8], a: Answer, n: usize)
    ensures { out.new ≡ sets out.old 0 (bytes_of ((words_of (said a)).kind ∷ (words_of (said a)).value ∷ 0 ∷ n ∷ [])) }
{
    let w = answer_words::words(a);
    le_put::put_words(out, 0, &[w.kind, w.value, 0, n as u64]);
}

// A write, with the words of its effects.
pub fn put_completed(out: &mut [u8], a: Answer, fx: &[u64]) -> usize
    ensures out_after { out.new ≡ sets out.old 0 (told (said a) fx.now []) }
    ensures value { result ≡ length (told (said a) fx.now []) }
    ensures upper_bound { result ≤ 48 + 8 * length fx.now }
{
    let k = outcome_bytes::put_answer(out, a);
    let n = fx.len();
    le_put::put8(out, k, n as u64);
    le_put::put_words(out, k + 8, fx);
    le_put::put8(out, k + 8 + 8 * n, 0);
    k + 16 + 8 * n
}
