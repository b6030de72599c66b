// A pass: what a send uses up.

// The outcome of a check at a peer and a time. It is neither copied nor let go: a send uses it up. Links make passes;
// one made elsewhere gives no right, since a send looks at the link's word itself.
pub struct Pass<P> {
    pub peer: P,
    pub time: u64,
}
