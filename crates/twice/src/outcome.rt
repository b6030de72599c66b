// What two sends come to.

// Which of two messages were accepted; of one that was not, the time until which the peer is to wait, if any.
#[derive(Clone, Copy, Debug, PartialEq, Eq)]
pub enum Outcome {
    Neither(Option<u64>),
    First(Option<u64>),
    Both,
}
