//! A slice of a statement that is gathered, as a look at a book.

use acq_book::{Book, BookFault};
use acq_host::BookLook;
use acq_statement::Gathering;
use std::alloc::Global;

/// A statement that is gathered on by a slice.
#[derive(Clone, Copy)]
pub(crate) struct GatheringLook<'a> {
    pub(crate) gathering: &'a Gathering,
}

impl BookLook<Gathering> for GatheringLook<'_> {
    ghost use Rattle.acq_statement.specs.Gathered.{IsGathered};

    ghost makes = { λ look t next. IsGathered t look.gathering.now → IsGathered t next };

    fn look<B: Book>(&self, alloc: Global, book: &mut B) -> Result<Gathering, BookFault> {
        self.gathering.go_on(alloc, book)
    }
}
