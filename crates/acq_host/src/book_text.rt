//! Texts of a book.

use acq_book::Book;
use acq_link::Sink;
use acq_reports::ReportFault;
use std::alloc::Global;

/// A text that is written of a book, which is left as it is.
pub trait BookText {
    ghost use Rattle.std.specs.Prelude.{◌≡◌, ◌+◌, List, ℕ, None};
    ghost use Rattle.acq_core.specs.Tables.{Tables};
    ghost use Rattle.acq_book.specs.Calls.{Looks};
    ghost use Rattle.acq_reports.specs.Faults.{CountsStore, failed_writes, is_settled};
    ghost use Rattle.acq_reports.specs.Writing.{Reports};

    /// The text of these tables.
    ghost text: { Self → Tables → List ℕ };

    /// Writes it. `Write` tells how many bytes of it went out; with `Memory` and `Store` a
    /// beginning of it may have. No other fault comes.
    fn write<B: Book, K: Sink>(
        &self,
        alloc: Global,
        book: &mut B,
        writer: &mut K,
    ) -> Result<(), ReportFault>
        ensures text { B.is_honest book.new → B.is_open book.old → Reports None
            (text self.now (B.tables book.old)) (K.sent writer.old) (K.sent writer.new) result }
        ensures writes { K.failures writer.new ≡ K.failures writer.old + failed_writes result }
        ensures looks { Looks B.Book book.old book.new (is_settled result) }
        ensures store { CountsStore result (B.failures book.old) (B.failures book.new) };
}
