// What a table holds, and what a rule makes of it.
ghost use Rattle.std.specs.Prelude.{◌≡◌};

use kinds::Ordered;

// A row is sorted by its key.
pub trait Row: Copy {
    type Key: Ordered;

    ghost key_of: { Self → Self.Key };

    fn key(&self) -> Self::Key
        ensures { result ≡ key_of self.now };
}

// A row that is its key alone.
#[derive(Clone, Copy)]
pub struct Only<K> {
    pub key: K,
}

impl<K: Ordered> Row for Only<K> {
    type Key = K;

    ghost key_of = { λ r. r.key };

    fn key(&self) -> K {
        self.key
    }
}
