// Draw sources: the endless row of 64-bit words ahead of each.
ghost use Rattle.std.specs.Prelude.{◌≡◌, ℕ, ◌^◌, ◌<◌};
ghost use Rattle.draw.specs.Words.{later, drawn, rest, listed, stepped, states, seeded};
ghost use Rattle.std.proofs.Common.{rules};
ghost use Rattle.draw.specs.Fits.{states_fit};
ghost use Rattle.std.specs.Vec.Iter.{into_iter_items};

use std::vec::IntoIter;

pub trait DrawSource {
    // the words ahead
    ghost ahead: { Self → ℕ → ℕ };

    // Takes the next word.
    fn word(&mut self) -> u64
        ensures value { result ≡ ahead self.old 0 }
        ensures after { ahead self.new ≡ later (ahead self.old) };

    ghost fits: { (x : Self) (k : ℕ) → ahead x k < 2 ^ 64 };
}

// The next word modulo `n`. It is the one place where a word becomes a number below another.
pub(crate) fn below<D: DrawSource>(source: &mut D, n: u64) -> u64
    requires { 0 < n }
    ensures value { result ≡ drawn n (D.ahead source.old) }
    ensures after { D.ahead source.new ≡ rest n (D.ahead source.old) }
{
    source.word() % n
}

// A supplied list of words, then zeros for ever.
#[derive(Drop)]
pub struct Supplied {
    words: IntoIter<u64>,
}

impl Supplied {
    pub fn new(words: Vec<u64>) -> Supplied
        ensures { listed (into_iter_items result.words) 0 ≡ listed words.items 0 }
    {
        Supplied {
            words: words.into_iter(),
        }
    }
}

impl DrawSource for Supplied {
    ghost ahead = { λ s. listed (into_iter_items s.words) 0 };

    ghost fits = { Prim.search rules };

    #[tactic(auto, using(crate::proofs::Listed::after_some, crate::proofs::Listed::after_none))]
    fn word(&mut self) -> u64 {
        self.words.next().unwrap_or(0)
    }
}

// One step of Marsaglia's generator.
fn next_state(state: u64) -> u64
    ensures { result ≡ stepped state }
{
    let mut s = state;
    s ^= s << 13;
    s ^= s >> 7;
    s ^= s << 17;
    s
}

// Marsaglia's xorshift: each word is the state after a step.
#[derive(Drop)]
pub struct Xorshift {
    state: u64,
    ghost fits: { state < 2 ^ 64 },
}

impl Xorshift {
    // Seed 0 counts as 1.
    pub fn new(seed: u64) -> Xorshift
        ensures { states result.state ≡ states (seeded seed) }
    {
        Xorshift {
            state: if seed == 0 { 1 } else { seed },
        }
    }
}

impl DrawSource for Xorshift {
    ghost ahead = { λ s. states s.state };

    ghost fits = { λ x k. states_fit k x.state x.fits };

    fn word(&mut self) -> u64 {
        self.state = next_state(self.state);
        self.state
    }
}
