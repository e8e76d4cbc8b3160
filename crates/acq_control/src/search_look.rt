//! A slice of a search, as a look at a book.

use acq_book::{Book, BookFault};
use acq_host::BookLook;
use acq_inquiry::Search;
use std::alloc::Global;

/// A search that goes on by a slice.
#[derive(Clone, Copy)]
pub(crate) struct SearchLook<'a> {
    pub(crate) search: &'a Search,
}

impl BookLook<Search> for SearchLook<'_> {
    ghost use Rattle.acq_inquiry.specs.Searching.{IsSearched};

    ghost makes = { λ look t next. IsSearched t look.search.now → IsSearched t next };

    fn look<B: Book>(&self, alloc: Global, book: &mut B) -> Result<Search, BookFault> {
        self.search.go_on(alloc, book)
    }
}
