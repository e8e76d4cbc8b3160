//! A listing, as a text of a book.

use acq_book::Book;
use acq_directory::{Listing, write_listing};
use acq_host::BookText;
use acq_link::Sink;
use acq_reports::ReportFault;
use std::alloc::Global;

/// The merchants, the terminals or the ranges.
#[derive(Drop)]
pub(crate) struct ListText {
    pub(crate) listing: Listing,
}

impl BookText for ListText {
    ghost use Rattle.acq_directory.specs.Listings.{listing_text};

    ghost text = { λ asked t. listing_text asked.listing t };

    fn write<B: Book, K: Sink>(
        &self,
        alloc: Global,
        book: &mut B,
        writer: &mut K,
    ) -> Result<(), ReportFault> {
        write_listing(alloc, book, self.listing, writer)
    }
}
