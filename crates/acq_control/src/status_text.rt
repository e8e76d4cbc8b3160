//! Figures of a host, as a text of its book.

use acq_book::Book;
use acq_host::BookText;
use acq_link::Sink;
use acq_reports::ReportFault;
use acq_status::{Serving, StatusForm, write_status};
use std::alloc::Global;

/// Figures of a book and of what is served.
#[derive(Clone, Copy)]
pub(crate) struct StatusText {
    pub(crate) form: StatusForm,
    pub(crate) serving: Serving,
}

impl BookText for StatusText {
    ghost use Rattle.std.specs.Prelude.{Some};
    ghost use Rattle.acq_status.specs.Figures.{figures_at};
    ghost use Rattle.acq_status.specs.Texts.{text_in};

    ghost text = { λ asked t. text_in asked.form (figures_at t) (Some asked.serving) };

    fn write<B: Book, K: Sink>(
        &self,
        alloc: Global,
        book: &mut B,
        writer: &mut K,
    ) -> Result<(), ReportFault> {
        write_status(alloc, book, self.form, Some(self.serving), writer)
    }
}
