//! A status of a book, written.

ghost use Rattle.std.specs.Prelude.{◌≡◌, ◌≢◌, ◌+◌, Err, IfOk};
ghost use Rattle.acq_book.specs.Calls.{Looks};
ghost use Rattle.acq_reports.specs.Faults.{CountsStore, failed_writes, is_settled};
ghost use Rattle.acq_reports.specs.Writing.{Writes};
ghost use Rattle.acq_reports.specs.declared.report_fault.ReportFault.TheVariants.{Store};
ghost use Rattle.acq_status.specs.Figures.{figures_at, figures_of};
ghost use Rattle.acq_status.specs.Texts.{text_in};

use crate::book_figures::BookFigures;
use crate::looking_up::look_up_figures;
use crate::serving::Serving;
use crate::status_form::StatusForm;
use crate::texts::{metrics_text, status_text};
use acq_book::Book;
use acq_link::Sink;
use acq_reports::{Report, ReportFault};
use std::alloc::{AllocError, Global};

/// Writes the figures of a book, and of what is served where something is (own profile;
/// `specs/Texts.antt`).
///
/// `Write` tells how many bytes of the text went out; with `Memory` and `Store` a beginning of it
/// may have. No other fault comes.
pub fn write_status<B: Book, K: Sink>(
    alloc: Global,
    book: &mut B,
    form: StatusForm,
    serving: Option<Serving>,
    writer: &mut K,
) -> Result<(), ReportFault>
    ensures text { B.is_honest book.new → B.is_open book.old → Writes K.sent K.failures
        (text_in form (figures_at (B.tables book.old)) serving)
        writer.old writer.new result }
    ensures writes { K.failures writer.new ≡ K.failures writer.old + failed_writes result }
    ensures looks { Looks B.Book book.old book.new (is_settled result) }
    ensures store { CountsStore result (B.failures book.old) (B.failures book.new) }
{
    let figures = look_up_figures(alloc, book)?;
    match text_in(alloc, form, &figures, serving) {
        Ok(text) => put_text(alloc, text.as_slice(), writer),
        Err(_) => Err(ReportFault::Memory),
    }
}

/// A status in this form.
fn text_in(
    alloc: Global,
    form: StatusForm,
    figures: &BookFigures,
    serving: Option<Serving>,
) -> Result<Vec<u8>, AllocError>
    ensures { IfOk result (λ text.
        text.items ≡ text_in form (figures_of figures.now) serving) }
{
    match form {
        StatusForm::Lines => status_text(alloc, figures, serving),
        StatusForm::Metrics => metrics_text(alloc, figures, serving),
    }
}

/// Writes a text whole.
pub(crate) fn put_text<K: Sink>(
    alloc: Global,
    text: &[u8],
    writer: &mut K,
) -> Result<(), ReportFault>
    ensures text { Writes K.sent K.failures text.now writer.old writer.new result }
    ensures no_store { result ≢ Err Store }
{
    let mut report = Report::new(alloc, writer);
    report.put(text);
    report.end(Ok(()))
}
