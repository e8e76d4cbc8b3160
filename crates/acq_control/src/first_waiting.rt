//! Which request waits the longest, as a text of a book.

use acq_book::Book;
use acq_host::BookText;
use acq_link::Sink;
use acq_reports::ReportFault;
use acq_status::write_first_waiting;
use std::alloc::Global;

/// What tells the request that has waited the longest for its issuer's answer from all others that
/// wait; of a book in which none waits nothing.
#[derive(Clone, Copy)]
pub struct FirstWaiting;

impl BookText for FirstWaiting {
    ghost use Rattle.acq_status.specs.Figures.{first_waiting_name};

    ghost text = { λ asked t. first_waiting_name t };

    fn write<B: Book, K: Sink>(
        &self,
        alloc: Global,
        book: &mut B,
        writer: &mut K,
    ) -> Result<(), ReportFault> {
        write_first_waiting(alloc, book, writer)
    }
}
