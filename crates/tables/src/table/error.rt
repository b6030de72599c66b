// Why a table is not made.
ghost use Rattle.std.specs.Prelude.{◌≡◌};
ghost use Rattle.tables.specs.declared.table.error.TableError.TheVariants.{Memory};
ghost use Rattle.tables.specs.Errors.{number_of};

use std::alloc::AllocError;

#[derive(Clone, Copy, Debug, PartialEq, Eq)]
pub enum TableError {
    // A number of rows out of bounds.
    Rows,
    Memory,
}

impl TableError {
    // The number of the refusal; want of memory has none.
    pub fn number(self) -> Option<u8>
        ensures { result ≡ number_of self }
    {
        match self {
            TableError::Rows => Some(2),
            TableError::Memory => None,
        }
    }
}

impl From<AllocError> for TableError {
    ghost from_gives = { λ _ e. e ≡ Memory };

    fn from(_e: AllocError) -> Self {
        Self::Memory
    }
}
