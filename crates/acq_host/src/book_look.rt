//! Looks at a book.

use acq_book::{Book, BookFault};
use std::alloc::Global;

/// What looks at a book, which is left as it is, and makes something of what it sees.
pub trait BookLook<T> {
    ghost use Rattle.std.specs.Prelude.{is_ok, IfOk};
    ghost use Rattle.acq_core.specs.Tables.{Tables};
    ghost use Rattle.acq_book.specs.Calls.{Looks};
    ghost use Rattle.acq_book.specs.Promise.{CountsFault};

    /// What it makes of these tables.
    ghost makes: { Self → Tables → T → Type 0 };

    /// Looks at a book.
    fn look<B: Book>(&self, alloc: Global, book: &mut B) -> Result<T, BookFault>
        ensures makes { B.is_honest book.new → B.is_open book.old → IfOk result
            (makes self.now (B.tables book.old)) }
        ensures looks { Looks B.Book book.old book.new (is_ok result) }
        ensures store { CountsFault result (B.failures book.old) (B.failures book.new) };
}
