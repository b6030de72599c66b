// A table: rows in memory that is reserved when the table is made.
ghost use Rattle.std.specs.Prelude.{◌≤◌, vec_len, vec_capacity};

mod append;
mod edits;
pub mod error;
mod passes;

// Carries the number of its engine. No call after the making asks for memory, so it is no map. Reserved bytes in `link` and
// the shares in `roster` reserve their memory likewise; each keeps facts of its own and grows in its own way.
#[derive(Drop)]
pub struct Table<R: Copy> {
    engine: u32,
    most: usize,
    rows: Vec<R>,
    ghost within: { vec_len rows ≤ most },
    ghost reserved: { most ≤ vec_capacity rows },
}
