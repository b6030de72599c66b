// Seats of performances.
ghost use Rattle.std.specs.Prelude.{◌≡◌, ◌++◌};
ghost use Rattle.kinds.specs.Order.{by_number, and_then};
ghost use Rattle.kinds.specs.Bytes.{be2, be4};
ghost use Rattle.std.proofs.Common.{rules};

use crate::ordered::Ordered;
use crate::storable::Storable;
use std::alloc::AllocError;

// A seat of a performance, ordered by the performance and then by the seat.
#[derive(Clone, Copy, PartialEq, Eq, PartialOrd, Ord)]
pub struct Seat {
    pub performance: u32,
    pub seat: u16,
}

impl Ordered for Seat {
    ghost order = { λ x y. and_then (by_number x.performance y.performance) (by_number x.seat y.seat) };

    ghost compares = { Prim.search rules };

    ghost equals = { Prim.search rules };

    ghost same = { Prim.search rules };
}

impl Storable for Seat {
    ghost width = { 6 };

    ghost form = { λ x. be4 x.performance ++ be2 x.seat };

    ghost narrow = { Prim.search rules };

    ghost wide = { Prim.search rules };

    ghost distinct = { Prim.search rules };

    fn size() -> u16 {
        6
    }

    fn put(&self, out: &mut Vec<u8>) -> Result<(), AllocError> {
        let Seat { performance, seat } = *self;
        let [a, b, c, d] = performance.to_be_bytes();
        let [e, f] = seat.to_be_bytes();
        out.extend_from_slice(&[a, b, c, d, e, f])
    }
}
