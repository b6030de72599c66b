// The draw source of a script, and how many words were taken from it.
ghost use Rattle.std.specs.Prelude.{◌≡◌};
ghost use Rattle.std.proofs.Common.{rules};

use draw::{DrawSource, Supplied, Xorshift};
use std::fmt;

// The words of a source, as a line gives them: a list, or the seed of a generator.
#[derive(Drop)]
pub(crate) enum Words {
    List(Vec<u64>),
    Xorshift(u64),
}

impl fmt::Display for Words {
    fn fmt<W: fmt::Write>(&self, f: &mut fmt::Formatter<W>) -> fmt::Result {
        match self {
            Words::List(words) => {
                f.write_str("list:")?;
                f.write_joined(words.iter(), ",")
            }
            Words::Xorshift(seed) => write!(f, "xorshift:{seed}"),
        }
    }
}

// A source that counts its words.
#[derive(Drop)]
pub(crate) struct Counted<D> {
    words: D,
    taken: u64,
}

impl<D: DrawSource> Counted<D> {
    fn new(words: D) -> Counted<D> {
        Counted { words, taken: 0 }
    }
}

impl<D: DrawSource> DrawSource for Counted<D> {
    ghost ahead = { λ s. D.DrawSource.ahead s.words };

    ghost fits = { Prim.search rules };

    fn word(&mut self) -> u64 {
        self.taken = self.taken.wrapping_add(1);
        self.words.word()
    }
}

// Kept as two types: one over both needs an arm for each in `word` and in the row of words ahead, and is no plainer.
#[derive(Drop)]
pub(crate) enum Source {
    List(Counted<Supplied>),
    Xorshift(Counted<Xorshift>),
}

impl From<Words> for Source {
    fn from(words: Words) -> Source {
        match words {
            Words::List(words) => Source::List(Counted::new(Supplied::new(words))),
            Words::Xorshift(seed) => Source::Xorshift(Counted::new(Xorshift::new(seed))),
        }
    }
}

impl Source {
    pub(crate) fn taken(&self) -> u64 {
        match self {
            Source::List(s) => s.taken,
            Source::Xorshift(s) => s.taken,
        }
    }
}
