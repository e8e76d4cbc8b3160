//! Lines of rows.

ghost use Rattle.std.specs.Prelude.{◌≡◌, ◌++◌, flat_map, is_ok, IfOk};
ghost use Rattle.acq_book.specs.Calls.{Looks};
ghost use Rattle.acq_book.specs.Promise.{CountsFault};
ghost use Rattle.acq_gateway_lines.specs.Slices.{told_line};

use crate::known_of_row::KnownOfRow;
use crate::line_text::line_of;
use crate::told_row::ToldRow;
use crate::waiting_message::WaitingMessage;
use acq_book::{Book, BookFault};
use acq_core::Moment;
use std::alloc::Global;

/// The lines of rows, in order.
#[tactic(auto, using(acq_book::proofs::Chains::looks_more))]
pub(crate) fn lines_of<B: Book>(
    alloc: Global,
    book: &mut B,
    moment: Moment,
    messages: &[WaitingMessage],
    rows: &[ToldRow],
) -> Result<Vec<u8>, BookFault>
    ensures text { B.is_honest book.new → B.is_open book.old → IfOk result (λ text.
        text.items ≡ flat_map (told_line (B.tables book.old) moment messages.now) rows.now) }
    ensures looks { Looks B.Book book.old book.new (is_ok result) }
    ensures store { CountsFault result (B.failures book.old) (B.failures book.new) }
{
    let mut text = Vec::new(alloc);
    for told in rows {
        let line = row_line(alloc, book, moment, messages, told)?;
        text.extend_from_slice(line.as_slice())?;
    }
    Ok(text)
}

/// The line of one.
#[tactic(auto, using(acq_book::proofs::Chains::looks_more))]
fn row_line<B: Book>(
    alloc: Global,
    book: &mut B,
    moment: Moment,
    messages: &[WaitingMessage],
    told: &ToldRow,
) -> Result<Vec<u8>, BookFault>
    ensures text { B.is_honest book.new → B.is_open book.old → IfOk result (λ line.
        line.items ≡ told_line (B.tables book.old) moment messages.now told.now) }
    ensures looks { Looks B.Book book.old book.new (is_ok result) }
    ensures store { CountsFault result (B.failures book.old) (B.failures book.new) }
{
    let known = KnownOfRow::of(book, told.notice, &told.row)?;
    let line = line_of(
        alloc,
        moment,
        messages,
        told.number,
        told.notice,
        &told.row,
        &known,
    )?;
    Ok(line)
}
