// How a trace shows what the lower crates define: stations and keys, ratings, bytes and lists of them.
use kinds::{Bytes32, Named, Seat, Station};
use score::{Flat, Score};
use std::fmt;
use tables::Only;

// A value that a trace shows; this program cannot write `Display` for the types of another crate.
pub(crate) trait Show {
    fn show<W: fmt::Write>(&self, f: &mut fmt::Formatter<W>) -> fmt::Result;
}

// A value as a trace shows it.
#[derive(Drop)]
pub(crate) struct Shown<'a, T>(pub(crate) &'a T);

impl<T: Show> fmt::Display for Shown<'_, T> {
    fn fmt<W: fmt::Write>(&self, f: &mut fmt::Formatter<W>) -> fmt::Result {
        self.0.show(f)
    }
}

// A list such as `1,2,3`; the empty one is `-`.
#[derive(Drop)]
pub(crate) struct Listed<'a, T>(pub(crate) &'a [T]);

impl<T: Show> fmt::Display for Listed<'_, T> {
    fn fmt<W: fmt::Write>(&self, f: &mut fmt::Formatter<W>) -> fmt::Result {
        if self.0.is_empty() {
            return f.write_str("-");
        }
        f.write_joined(self.0.iter().map(|one| Shown(one)), ",")
    }
}

// Bytes as two hexadecimal digits each.
#[derive(Clone, Copy)]
pub(crate) struct Hex<'a>(pub(crate) &'a [u8]);

impl fmt::Display for Hex<'_> {
    fn fmt<W: fmt::Write>(&self, f: &mut fmt::Formatter<W>) -> fmt::Result {
        for b in self.0 {
            write!(f, "{b:02x}")?;
        }
        Ok(())
    }
}

impl Show for Bytes32 {
    fn show<W: fmt::Write>(&self, f: &mut fmt::Formatter<W>) -> fmt::Result {
        write!(f, "{}", Hex(&self.bytes()))
    }
}

impl Show for Station {
    fn show<W: fmt::Write>(&self, f: &mut fmt::Formatter<W>) -> fmt::Result {
        write!(f, "{}", self.0)
    }
}

impl<R> Show for Named<R> {
    fn show<W: fmt::Write>(&self, f: &mut fmt::Formatter<W>) -> fmt::Result {
        self.bytes.show(f)
    }
}

impl Show for Seat {
    fn show<W: fmt::Write>(&self, f: &mut fmt::Formatter<W>) -> fmt::Result {
        write!(f, "{}:{}", self.performance, self.seat)
    }
}

impl<K: Show> Show for Only<K> {
    fn show<W: fmt::Write>(&self, f: &mut fmt::Formatter<W>) -> fmt::Result {
        self.key.show(f)
    }
}

impl Show for Flat {
    fn show<W: fmt::Write>(&self, f: &mut fmt::Formatter<W>) -> fmt::Result {
        f.write_str("(flat)")
    }
}

// Both means, the length times 2^32; a fresh score has none.
impl Show for Score {
    fn show<W: fmt::Write>(&self, f: &mut fmt::Formatter<W>) -> fmt::Result {
        match self.means {
            Some(means) => write!(f, "({}/{})", means.size, means.time),
            None => f.write_str("(-)"),
        }
    }
}
