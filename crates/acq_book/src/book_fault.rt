//! Why a book refuses.

use std::alloc::AllocError;

/// Why a call of a book failed.
#[derive(Clone, Copy, Debug)]
pub enum BookFault {
    /// 1: memory ran out.
    Memory,
    /// 2: a call of the store failed, or gave rows that break the bounds of their columns.
    Store,
}

impl From<AllocError> for BookFault {
    ghost use Rattle.std.specs.Prelude.{◌≡◌};
    ghost use Rattle.acq_book.specs.declared.book_fault.BookFault.TheVariants.{Memory};

    ghost from_gives = { λ _ fault. fault ≡ Memory };

    fn from(_e: AllocError) -> BookFault {
        BookFault::Memory
    }
}
