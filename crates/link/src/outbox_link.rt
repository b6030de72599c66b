// The outbox link: it writes each message that it takes to its bytes.
ghost use Rattle.std.specs.Prelude.{◌≡◌, length, IfOk};
ghost use Rattle.link.specs.Meaning.{Sends, message_of};
ghost use Rattle.link.specs.Boxes.{bytes_of, room_of, fits, box_word, Empty, Step, HoldsTaken};
ghost use Rattle.std.proofs.Common.{rules};

use crate::Link;
use crate::frames::frame_len;
use crate::outbox::Outbox;
use crate::pass::Pass;
use crate::reserved::Reserved;
use crate::tally::Tally;
use crate::words::Message;
use kinds::Storable;
use std::alloc::{AllocError, Global};

impl<P: Storable, K: Storable> Outbox<P, K> {
    // An empty outbox with memory for some bytes, or the want of it. After any sends it holds exactly the messages
    // that were accepted.
    pub fn new(heap: Global, room: usize) -> Result<Outbox<P, K>, AllocError>
        ensures { IfOk result (λ o. Empty room o × HoldsTaken P.Storable.own K.Storable.own o) }
    {
        let bytes = Reserved::new(heap, room)?;
        Ok(Outbox {
            bytes,
            tally: Tally::new(),
        })
    }

    // Whether one more message fits.
    fn fits(&self) -> bool
        ensures { result ≡ fits P.Storable.own K.Storable.own self.now }
    {
        frame_len::<P, K>() <= self.bytes.room - self.bytes.written.len()
    }

    // How many bytes were written.
    pub fn len(&self) -> usize
        ensures { result ≡ length (bytes_of self.now) }
    {
        self.bytes.written.len()
    }

    // The bytes.
    pub fn bytes(&self) -> &[u8]
        ensures { result.now ≡ bytes_of self.now }
    {
        self.bytes.written.as_slice()
    }

    // How many bytes there may be.
    pub fn room(&self) -> usize
        ensures { result ≡ room_of self.now }
    {
        self.bytes.room
    }

    // How many messages were taken, modulo 2^64.
    pub fn count(&self) -> u64
        ensures { result ≡ self.now.tally.count }
    {
        self.tally.count
    }

    // The latest message taken.
    pub fn latest(&self) -> Option<Message<P, K>>
        ensures { result ≡ self.now.tally.latest }
    {
        self.tally.latest
    }
}

impl<P: Storable, K: Storable> Link<P, K> for Outbox<P, K> {
    ghost word = { box_word P.Storable.own K.Storable.own };

    ghost count = { λ l. l.tally.count };

    ghost latest = { λ l. l.tally.latest };

    ghost later = { Prim.search rules };

    fn check(&self, peer: P, time: u64) -> Result<Pass<P>, u64> {
        Ok(Pass { peer, time })
    }

    fn send(&mut self, pass: Pass<P>, id: u64, key: K) -> bool
        ensures sends { Sends (box_word P.Storable.own K.Storable.own) (λ l. l.tally.count) (λ l. l.tally.latest) self.old pass id key result self.new }
        ensures step { Step P.Storable.own K.Storable.own self.old (message_of pass id key) result self.new }
    {
        let Pass { peer, time: _ } = pass;
        if !self.fits() {
            return false;
        }
        let message = Message { id, peer, key };
        self.bytes.put_frame(&message);
        self.tally.add(message);
        true
    }
}
