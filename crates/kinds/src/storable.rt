// Kinds that have a form in bytes.
ghost use Rattle.std.specs.Prelude.{◌≡◌, ℕ, ◌+◌, ◌<◌, ◌≤◌, List, ◌++◌, length, is_ok, if◌then◌else◌, vec_len, vec_capacity, OnErr};

use crate::ordered::Ordered;
use std::alloc::AllocError;

// An ordered kind with a form of a fixed width in bytes. The width fits the two bytes that a frame has for it, and
// different values have different forms.
pub trait Storable: Ordered {
    ghost width: { ℕ };

    ghost form: { Self → List ℕ };

    // The width in bytes.
    fn size() -> u16
        ensures { result ≡ width };

    // Appends the form. Without memory for it the bytes stay as they are, which cannot happen within the capacity.
    fn put(&self, out: &mut Vec<u8>) -> Result<(), AllocError>
        ensures items { out.new.items ≡ (if is_ok result then out.old.items ++ form self.now else out.old.items) }
        ensures len { vec_len out.new ≡ (if is_ok result then vec_len out.old + width else vec_len out.old) }
        ensures capacity { vec_capacity out.old ≤ vec_capacity out.new }
        ensures full { OnErr result (vec_capacity out.old < vec_len out.old + width) };

    ghost narrow: { width ≤ 65535 };

    ghost wide: { (x : Self) → length (form x) ≡ width };

    ghost distinct: { (x y : Self) → form x ≡ form y → x ≡ y };
}
