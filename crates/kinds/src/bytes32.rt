// 32 bytes, which public keys and digests are made of.
ghost use Rattle.std.specs.Prelude.{◌≡◌, length};
ghost use Rattle.kinds.specs.Order.{by_bytes};
ghost use Rattle.kinds.specs.Lex.{bytes_equal, bytes_same};
ghost use Rattle.std.proofs.Common.{rules, arith};

use crate::ordered::Ordered;
use crate::storable::Storable;
use std::alloc::AllocError;

// 32 bytes, ordered byte by byte.
#[derive(Clone, Copy, PartialEq, Eq, PartialOrd, Ord)]
pub struct Bytes32 {
    bytes: [u8; 32],
    ghost whole: { length bytes ≡ 32 },
}

impl Bytes32 {
    pub fn new(bytes: [u8; 32]) -> Bytes32
        ensures { result.bytes ≡ bytes }
    {
        Bytes32 { bytes }
    }

    pub fn bytes(&self) -> [u8; 32]
        ensures { result ≡ self.now.bytes }
    {
        self.bytes
    }
}

impl Ordered for Bytes32 {
    ghost order = { λ x y. by_bytes x.bytes y.bytes };

    ghost compares = { Prim.search rules };

    ghost equals = { λ x y. bytes_equal x.bytes y.bytes };

    ghost same = { λ x y h. let e = bytes_same x.bytes y.bytes h in Prim.grind (arith, Self.row.coded.inj) };
}

impl Storable for Bytes32 {
    ghost width = { 32 };

    ghost form = { λ x. x.bytes };

    ghost narrow = { Prim.search rules };

    ghost wide = { Prim.search rules };

    ghost distinct = { Prim.grind (arith, Self.row.coded.inj) };

    fn size() -> u16 {
        32
    }

    fn put(&self, out: &mut Vec<u8>) -> Result<(), AllocError> {
        out.extend_from_slice(&self.bytes)
    }
}
