// What the host is asked to do: an effect, and the three 64-bit words in which it crosses (01, "What changes shape").
#![tactic(auto)]

ghost use Rattle.std.specs.Prelude.{◌≡◌, ◌≤◌, eqb, length};
ghost use Rattle.std.proofs.lemmas.List.Edits.{sets};
ghost use Rattle.events.specs.Entry.{unmap_of};
ghost use Rattle.effect.specs.Effect.{effect_words, effect_of, crossed};

use slot::PageSpan;

#[derive(Clone, Copy, Debug, PartialEq, Eq)]
pub enum Effect {
    // the caller of a call that is replied to
    Wake { caller: u32, tag: u64 },
    // what an event entry announces
    Event { number: u64, flags: u64 },
    // the root's event for the queue
    Root { scheme: u64, flags: u64 },
}

// As it crosses. Kind 0 is none.
#[repr(C)]
#[derive(Clone, Copy)]
pub struct EffectWords {
    pub kind: u64,
    pub a: u64,
    pub b: u64,
}

// An effect's words, or those of none.
pub fn words(e: Option<Effect>) -> EffectWords
    ensures value { result ≡ effect_of (effect_words e) }
    ensures same { crossed result ≡ effect_words e }
{
    match e {
        None => EffectWords {
            kind: 0,
            a: 0,
            b: 0,
        },
        Some(Effect::Wake { caller, tag }) => EffectWords {
            kind: 1,
            a: caller as u64,
            b: tag,
        },
        Some(Effect::Event { number, flags }) => EffectWords {
            kind: 4,
            a: number,
            b: flags,
        },
        Some(Effect::Root { scheme, flags }) => EffectWords {
            kind: 5,
            a: scheme,
            b: flags,
        },
    }
}

// The three words of an effect, where it is one, from word `at` on; says how many words these are.
pub fn put(e: EffectWords, fx: &mut [u64], at: usize) -> usize
    ensures value { result ≡ length (crossed e) }
    ensures upper_bound { result ≤ 3 }
    ensures fx_after { fx.new ≡ sets fx.old at (crossed e) }
{
    let kind = e.kind;
    if kind == 0 {
        return 0;
    }
    word_put::put3(fx, at, kind, e.a, e.b);
    3
}

// The same of the effect that unmaps a span, where it has pages.
pub fn put_unmap(span: PageSpan, fx: &mut [u64], at: usize) -> usize
    ensures value { result ≡ length (unmap_of (eqb span.count 0) span) }
    ensures upper_bound { result ≤ 3 }
    ensures fx_after { fx.new ≡ sets fx.old at (unmap_of (eqb span.count 0) span) }
{
    let count = span.count;
    if count == 0 {
        return 0;
    }
    word_put::put3(fx, at, 2, span.base, count);
    3
}
