// Kinds made of 32 bytes in a role: stations by public key, and records by digest.
ghost use Rattle.std.specs.Prelude.{◌≡◌};
ghost use Rattle.kinds.specs.Order.{by_bytes};
ghost use Rattle.kinds.specs.Lex.{bytes_equal, bytes_same};
ghost use Rattle.kinds.specs.Values.{named_same};
ghost use Rattle.std.proofs.Common.{rules};

use crate::bytes32::Bytes32;
use crate::ordered::Ordered;
use crate::storable::Storable;
use std::alloc::AllocError;
use std::marker::PhantomData;

// The role of a station's public key.
#[derive(Clone, Copy, PartialEq, Eq, PartialOrd, Ord)]
pub struct Peer;

// The role of a record's digest.
#[derive(Clone, Copy, PartialEq, Eq, PartialOrd, Ord)]
pub struct Record;

// 32 bytes in a role: those of one cannot be handed in for those of another.
#[derive_where(Clone, Copy, PartialEq, Eq, PartialOrd, Ord)]
pub struct Named<R> {
    pub bytes: Bytes32,
    #[derive_where(skip)]
    role: PhantomData<R>,
}

// A door station by its public key.
pub type PublicKey = Named<Peer>;

// A record by its digest.
pub type Digest = Named<Record>;

impl<R> Named<R> {
    pub fn new(bytes: Bytes32) -> Named<R>
        ensures { result.bytes ≡ bytes }
    {
        Named {
            bytes,
            role: PhantomData,
        }
    }
}

impl<R> Ordered for Named<R> {
    ghost order = { λ x y. by_bytes x.bytes.bytes y.bytes.bytes };

    ghost compares = { Prim.search rules };

    ghost equals = { λ x y. bytes_equal x.bytes.bytes y.bytes.bytes };

    ghost same = { λ x y h. named_same x y (bytes_same x.bytes.bytes y.bytes.bytes h) };
}

impl<R> Storable for Named<R> {
    ghost width = { 32 };

    ghost form = { λ x. x.bytes.bytes };

    ghost narrow = { Prim.search rules };

    ghost wide = { Prim.search rules };

    ghost distinct = { named_same };

    fn size() -> u16 {
        Bytes32::size()
    }

    fn put(&self, out: &mut Vec<u8>) -> Result<(), AllocError> {
        self.bytes.put(out)
    }
}
