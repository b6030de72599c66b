// What a link says of a peer, and what it takes.

// What a link says of a peer at a time: it takes a message, it takes none, or the peer is to wait until a later time.
#[derive(Clone, Copy, Debug, PartialEq, Eq)]
pub enum Word {
    Take,
    Closed,
    Wait(u64),
}

// A message: under an id, to a peer, for a key.
#[derive(Clone, Copy, Debug, PartialEq, Eq)]
pub struct Message<P, K> {
    pub id: u64,
    pub peer: P,
    pub key: K,
}
