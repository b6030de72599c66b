// A kind made of two others, ordered by the first and then by the second.
ghost use Rattle.std.specs.Prelude.{◌≡◌};
ghost use Rattle.kinds.specs.Order.{and_then};
ghost use Rattle.std.proofs.Common.{rules};

use crate::ordered::Ordered;

#[derive(Clone, Copy, PartialEq, Eq, PartialOrd, Ord)]
pub struct Pair<A, B> {
    pub first: A,
    pub second: B,
}

impl<A: Ordered, B: Ordered> Ordered for Pair<A, B> {
    ghost order = { λ x y. and_then (A.Ordered.order x.first y.first) (B.Ordered.order x.second y.second) };

    ghost compares = { Prim.search rules };

    ghost equals = { Prim.search rules };

    ghost same = { Prim.search rules };
}
