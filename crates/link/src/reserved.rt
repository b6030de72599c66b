// Bytes in memory that is reserved once.
ghost use Rattle.std.specs.Prelude.{◌≡◌, ◌≤◌, length, vec_len, vec_capacity};

// The bytes written so far, and how many there may be: memory for all of them was reserved at making.
#[derive(Drop)]
pub(crate) struct Reserved {
    pub(crate) written: Vec<u8>,
    pub(crate) room: usize,
    ghost whole: { length written.items ≡ vec_len written },
    ghost within: { vec_len written ≤ room },
    ghost reserved: { room ≤ vec_capacity written },
}
