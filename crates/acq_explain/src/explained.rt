//! An event, explained.

use crate::writing::write_explained;
use acq_book::Book;
use acq_core::Event;
use acq_host::BookText;
use acq_link::Sink;
use acq_reports::ReportFault;
use std::alloc::Global;

/// What the host would say to this event, and why.
#[derive(Clone, Copy)]
pub struct Explained<'a> {
    pub event: &'a Event,
}

impl BookText for Explained<'_> {
    ghost use Rattle.acq_explain.specs.Explained.{explained_in};

    ghost text = { λ asked t. explained_in t asked.event.now };

    fn write<B: Book, K: Sink>(
        &self,
        alloc: Global,
        book: &mut B,
        writer: &mut K,
    ) -> Result<(), ReportFault> {
        write_explained(alloc, book, self.event, writer)
    }
}
