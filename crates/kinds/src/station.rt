// Stations by number.
ghost use Rattle.std.specs.Prelude.{◌≡◌};
ghost use Rattle.kinds.specs.Order.{by_number};
ghost use Rattle.kinds.specs.Bytes.{be4};
ghost use Rattle.std.proofs.Common.{rules};

use crate::ordered::Ordered;
use crate::storable::Storable;
use std::alloc::AllocError;

// A door station by its number.
#[derive(Clone, Copy, PartialEq, Eq, PartialOrd, Ord)]
pub struct Station(pub u32);

impl Ordered for Station {
    ghost order = { λ x y. by_number x.0 y.0 };

    ghost compares = { Prim.search rules };

    ghost equals = { Prim.search rules };

    ghost same = { Prim.search rules };
}

impl Storable for Station {
    ghost width = { 4 };

    ghost form = { λ x. be4 x.0 };

    ghost narrow = { Prim.search rules };

    ghost wide = { Prim.search rules };

    ghost distinct = { Prim.search rules };

    fn size() -> u16 {
        4
    }

    fn put(&self, out: &mut Vec<u8>) -> Result<(), AllocError> {
        out.extend_from_slice(&self.0.to_be_bytes())
    }
}
