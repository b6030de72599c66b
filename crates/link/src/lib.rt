// A link to peers: what it says of each, and how a message is sent over it.
#![tactic(auto)]

ghost use Rattle.std.specs.Prelude.{◌≡◌, ℕ, ◌^◌, ◌<◌, Option};
ghost use Rattle.link.specs.declared.words.Word.{Word};
ghost use Rattle.link.specs.declared.words.Word.TheVariants.{Wait};
ghost use Rattle.link.specs.declared.words.Message.{Message};
ghost use Rattle.link.specs.Meaning.{Checks, Sends};

mod frames;
mod lane;
mod lane_link;
mod lanes;
mod outbox;
mod outbox_link;
mod pass;
mod reserved;
mod tally;
mod words;

use kinds::Ordered;
pub use lane::{Lane, Refusal};
pub use lanes::Lanes;
pub use outbox::Outbox;
pub use pass::Pass;
pub use words::{Message, Word};

// A link to peers of the kind P that carries keys of the kind K. It has a word for each peer at each time, the number
// of messages taken, modulo 2^64, and the latest of them.
pub trait Link<P: Ordered, K: Ordered> {
    ghost word: { Self → P → ℕ → Word };

    ghost count: { Self → ℕ };

    ghost latest: { Self → Option (Message P K) };

    // A wait answers its time, any other word a pass; nothing changes. A peer and a time: the form of the port, as below.
    fn check(&self, peer: P, time: u64) -> Result<Pass<P>, u64>
        ensures { Checks (word self.now peer time) peer time result };

    // Sends a message under a pass, which is used up. It is accepted at the word take, else refused: the form of the
    // port, named in the rules.
    fn send(&mut self, pass: Pass<P>, id: u64, key: K) -> bool
        ensures { Sends word count latest self.old pass id key result self.new };

    ghost later: { (l : Self) (p : P) (n t : ℕ) → word l p n ≡ Wait t → (n < t) × (t < 2 ^ 63) };
}
