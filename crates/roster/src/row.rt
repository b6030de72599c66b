// A peer of the roster with its rating.
ghost use Rattle.std.specs.Prelude.{◌≡◌};

use kinds::Ordered;
use tables::Row;

#[derive(Clone, Copy)]
pub struct PeerRow<P, V> {
    pub peer: P,
    pub rating: V,
}

impl<P: Ordered, V: Copy> Row for PeerRow<P, V> {
    type Key = P;

    ghost key_of = { λ r. r.peer };

    fn key(&self) -> P {
        self.peer
    }
}
