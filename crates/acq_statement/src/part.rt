//! Parts of a text.

ghost use Rattle.std.specs.Prelude.{◌≡◌, flat_map};
ghost use Rattle.acq_statement.specs.Parts.{PutsPart, walk_of};

use acq_book::{Book, BookFault};
use acq_link::Sink;
use acq_reports::Report;

/// What is written of an item of a list.
pub(crate) trait Part<Item> {
    ghost use Rattle.std.specs.Prelude.{ℕ, List};
    ghost use Rattle.acq_core.specs.Tables.{Tables};

    /// The text.
    ghost text: { Self → Item → Tables → List ℕ };

    /// Puts the text of an item, and returns whether more may follow.
    fn put<B: Book, K: Sink>(
        &self,
        book: &mut B,
        item: &Item,
        report: &mut Report<'_, K>,
    ) -> Result<bool, BookFault>
        ensures { PutsPart B.Book K.sent K.failures (text self.now item.now)
            book.old book.new report.old report.new result };
}

/// Puts the text of each item, and returns whether more may follow.
pub(crate) fn put_each<B: Book, K: Sink, Item, P: Part<Item>>(
    book: &mut B,
    items: &[Item],
    part: &P,
    report: &mut Report<'_, K>,
) -> Result<bool, BookFault>
    ensures { PutsPart B.Book K.sent K.failures
        (λ t. flat_map (λ item. P.text part.now item t) items.now)
        book.old book.new report.old report.new result }
{
    for item in items.iter() {
        match part.put(book, item, report) {
            Ok(true) => {}
            Ok(false) => return Ok(false),
            Err(fault) => return Err(fault),
        }
    }
    Ok(true)
}

/// What a walk of the parts is to a report: whether it failed.
pub(crate) fn walk_of(written: Result<bool, BookFault>) -> Result<(), BookFault>
    ensures { result ≡ walk_of written }
{
    match written {
        Ok(_) => Ok(()),
        Err(fault) => Err(fault),
    }
}
