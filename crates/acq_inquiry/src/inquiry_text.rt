//! What became of requests.

ghost use Rattle.std.specs.Prelude.{◌≡◌, flat_map, is_ok, IfOk};
ghost use Rattle.acq_book.specs.Calls.{Looks};
ghost use Rattle.acq_book.specs.Promise.{CountsFault};
ghost use Rattle.acq_inquiry.specs.InquiryTexts.{many_line};
ghost use Rattle.acq_inquiry.specs.KeptPostings.{text_with, told_with};

use crate::kept_postings::KeptPostings;
use crate::line_parts::put_number;
use crate::posting_lines::posting_lines;
use crate::request_lines::put_request_lines;
use acq_book::{Book, BookFault};
use acq_core::Request;
use std::alloc::{AllocError, Global};

/// That more than so many requests were found.
pub(crate) fn many_text(alloc: Global, most: u64) -> Result<Vec<u8>, AllocError>
    ensures { IfOk result (λ text. text.items ≡ many_line most) }
{
    let mut text = Vec::from_slice(alloc, b"more than ")?;
    put_number(&mut text, most)?;
    text.extend_from_slice(b" requests found, too many to tell of: ")?;
    text.extend_from_slice(b"ask for one by its reference or trace number\n")?;
    Ok(text)
}

/// What became of these requests, or that there is none.
pub(crate) fn text_of_told<B: Book>(
    alloc: Global,
    book: &mut B,
    kept: &KeptPostings<'_>,
    rows: &[Request],
) -> Result<Vec<u8>, BookFault>
    ensures text { B.is_honest book.new → B.is_open book.old → IfOk result (λ text.
        text.items ≡ told_with kept.now.days.now (B.tables book.old) rows.now) }
    ensures looks { Looks B.Book book.old book.new (is_ok result) }
    ensures store { CountsFault result (B.failures book.old) (B.failures book.new) }
{
    if rows.is_empty() {
        return Ok(Vec::from_slice(alloc, b"nothing found\n")?);
    }
    text_of_rows(alloc, book, kept, rows)
}

/// What became of these requests, in order.
#[tactic(auto, using(acq_book::proofs::Chains::looks_more))]
fn text_of_rows<B: Book>(
    alloc: Global,
    book: &mut B,
    kept: &KeptPostings<'_>,
    rows: &[Request],
) -> Result<Vec<u8>, BookFault>
    ensures text { B.is_honest book.new → B.is_open book.old → IfOk result (λ text.
        text.items ≡ flat_map (text_with kept.now.days.now (B.tables book.old)) rows.now) }
    ensures looks { Looks B.Book book.old book.new (is_ok result) }
    ensures store { CountsFault result (B.failures book.old) (B.failures book.new) }
{
    let mut text = Vec::new(alloc);
    for row in rows {
        let lines = request_text(alloc, book, kept, row)?;
        text.extend_from_slice(lines.as_slice())?;
    }
    Ok(text)
}

/// What became of a request.
fn request_text<B: Book>(
    alloc: Global,
    book: &mut B,
    kept: &KeptPostings<'_>,
    row: &Request,
) -> Result<Vec<u8>, BookFault>
    ensures text { B.is_honest book.new → B.is_open book.old → IfOk result (λ text.
        text.items ≡ text_with kept.now.days.now (B.tables book.old) row.now) }
    ensures looks { Looks B.Book book.old book.new (is_ok result) }
    ensures store { CountsFault result (B.failures book.old) (B.failures book.new) }
{
    let posted = posting_lines(alloc, book, kept, row)?;
    let mut text = Vec::new(alloc);
    put_request_lines(&mut text, row)?;
    text.extend_from_slice(posted.as_slice())?;
    Ok(text)
}
