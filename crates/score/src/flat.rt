// The rating that draws all peers alike.
ghost use Rattle.std.specs.Prelude.{◌≡◌};
ghost use Rattle.std.proofs.Common.{rules};

use crate::rating::Rating;

#[derive(Clone, Copy, Debug, PartialEq, Eq)]
pub struct Flat;

impl Rating for Flat {
    ghost weighs = { λ _. 1 };

    ghost newcomer = { record {} };

    ghost recorded = { λ x _ _. x };

    ghost least = { Prim.search rules };

    ghost most = { Prim.search rules };

    ghost starts = { Prim.search rules };

    fn fresh() -> Flat {
        Flat
    }

    fn record(&mut self, _elapsed: u64, _size: u64) {}

    fn weight(&self) -> u64 {
        1
    }
}
