//! A slice of a comparison of a day, as a look at a book.

use acq_book::{Book, BookFault};
use acq_host::BookLook;
use acq_reports::DayComparison;
use std::alloc::Global;

/// A comparison of a day that goes on by a slice.
#[derive(Clone, Copy)]
pub(crate) struct ComparisonLook<'a> {
    pub(crate) comparison: &'a DayComparison,
}

impl BookLook<DayComparison> for ComparisonLook<'_> {
    ghost makes = { λ look t next. Unit {0} };

    fn look<B: Book>(&self, alloc: Global, book: &mut B) -> Result<DayComparison, BookFault> {
        self.comparison.go_on(alloc, book)
    }
}
