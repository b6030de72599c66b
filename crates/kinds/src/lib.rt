// Kinds of peers, keys and subscribers: what orders them and how each is written in bytes.
#![tactic(auto)]

mod bytes32;
mod named;
mod ordered;
mod pair;
mod seat;
mod station;
mod storable;

pub use bytes32::Bytes32;
pub use named::{Digest, Named, Peer, PublicKey, Record};
pub use ordered::Ordered;
pub use pair::Pair;
pub use seat::Seat;
pub use station::Station;
pub use storable::Storable;
