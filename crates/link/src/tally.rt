// What a link has taken.
ghost use Rattle.std.specs.Prelude.{◌≡◌, ◌+◌, ◌%◌, ◌^◌, Some, None};

use crate::words::Message;

// How many messages a link has taken, modulo 2^64, and the latest of them.
#[derive(Drop)]
pub(crate) struct Tally<P, K> {
    pub(crate) count: u64,
    pub(crate) latest: Option<Message<P, K>>,
}

impl<P: Copy, K: Copy> Tally<P, K> {
    // Nothing taken yet.
    pub(crate) fn new() -> Tally<P, K>
        ensures count { result.count ≡ 0 }
        ensures latest { result.latest ≡ None }
    {
        Tally {
            count: 0,
            latest: None,
        }
    }

    // One more.
    pub(crate) fn add(&mut self, message: Message<P, K>)
        ensures count { self.new.count ≡ (self.old.count + 1) % 2 ^ 64 }
        ensures latest { self.new.latest ≡ Some message }
    {
        self.count = self.count.wrapping_add(1);
        self.latest = Some(message);
    }
}
