// Where a key is, and what happens to it.
#[derive(Clone, Copy)]
pub enum Stage<P> {
    Queued { retried: bool, deadline: u64 },
    Out { id: u64, peer: P, start: u64 },
    Judged { slip: u32 },
}

// A send; a request that comes back without a record; a response that is handed out under a slip; the same response
// handed out again under another slip; a response that is not taken.
#[derive(Clone, Copy)]
pub enum Event<P> {
    Sent { id: u64, peer: P, start: u64 },
    Returned { deadline: u64 },
    Answered { slip: u32 },
    Redelivered { slip: u32 },
    Rejected { deadline: u64 },
}
