// Writes messages to reserved bytes.
ghost use Rattle.std.specs.Prelude.{◌≡◌, ◌+◌, [], length, IfOk};
ghost use Rattle.kinds.specs.Bytes.{be8};
ghost use Rattle.link.specs.Frames.{field, frame, frame_len};
ghost use Rattle.link.specs.Space.{Blank, HasRoom, Grown};

use crate::reserved::Reserved;
use crate::words::Message;
use kinds::Storable;
use std::alloc::{AllocError, Global};

// An id in bytes, most significant first.
fn id_bytes(id: u64) -> [u8; 8]
    ensures { result ≡ be8 id }
{
    id.to_be_bytes()
}

impl Reserved {
    // Memory for some bytes, with nothing written, or the want of it.
    pub(crate) fn new(heap: Global, room: usize) -> Result<Reserved, AllocError>
        ensures { IfOk result (λ r. Blank room r) }
    {
        let written = Vec::with_capacity(heap, room)?;
        Ok(Reserved { written, room })
    }

    // Appends bytes.
    fn put_bytes(&mut self, more: &[u8])
        requires { HasRoom (length more.now) self.old }
        ensures { Grown self.old more.now self.new }
    {
        self.written.extend_from_slice(more).unwrap();
    }

    // Appends the form of a value.
    fn put_form<T: Storable>(&mut self, x: &T)
        requires { HasRoom T.Storable.width self.old }
        ensures { Grown self.old (T.Storable.form x.now) self.new }
    {
        x.put(&mut self.written).unwrap();
    }

    // Appends the tag and the length of a field.
    fn put_head(&mut self, tag: u8, size: u16)
        requires { HasRoom 3 self.old }
        ensures { Grown self.old (field tag size []) self.new }
    {
        let [high, low] = size.to_be_bytes();
        self.put_bytes(&[tag, high, low]);
    }

    // Appends the field of an id. It stands beside `put_field`, since no kind is a plain number: a method for both was
    // tried, and the proof of a frame did not close.
    fn put_id(&mut self, id: u64)
        requires { HasRoom (3 + 8) self.old }
        ensures { Grown self.old (field 1 8 (be8 id)) self.new }
    {
        self.put_head(1, 8);
        self.put_bytes(&id_bytes(id));
    }

    // Appends the field of a value of a storable kind.
    fn put_field<T: Storable>(&mut self, tag: u8, x: &T)
        requires { HasRoom (3 + T.Storable.width) self.old }
        ensures { Grown self.old (field tag T.Storable.width (T.Storable.form x.now)) self.new }
    {
        self.put_head(tag, T::size());
        self.put_form(x);
    }

    // Appends a message.
    pub(crate) fn put_frame<P: Storable, K: Storable>(&mut self, message: &Message<P, K>)
        requires { HasRoom (frame_len P.Storable.own K.Storable.own) self.old }
        ensures { Grown self.old (frame P.Storable.own K.Storable.own message.now) self.new }
    {
        self.put_id(message.id);
        self.put_field(2, &message.peer);
        self.put_field(3, &message.key);
    }
}

// How long a message is.
pub(crate) fn frame_len<P: Storable, K: Storable>() -> usize
    ensures { result ≡ frame_len P.Storable.own K.Storable.own }
{
    let id = 3 + 8;
    let peer = 3 + P::size() as usize;
    let key = 3 + K::size() as usize;
    id + (peer + key)
}
