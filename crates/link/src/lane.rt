// The lane to one station, and why lanes cannot be made.
ghost use Rattle.std.specs.Prelude.{Some, codes};

use std::error::Error;
use std::fmt;

// The time from which a lane is free; none while it is closed.
pub type Lane = Option<u64>;

// Why lanes cannot be made.
#[derive(Clone, Copy, Debug, PartialEq, Eq)]
pub enum Refusal {
    // The spacing is too long.
    Spacing,
}

impl fmt::Display for Refusal {
    ghost output = { λ _. Some (codes "the spacing is too long") };

    fn fmt<W: fmt::Write>(&self, f: &mut fmt::Formatter<W>) -> fmt::Result {
        f.write_str(match self {
            Refusal::Spacing => "the spacing is too long",
        })
    }
}

impl Error for Refusal {}
