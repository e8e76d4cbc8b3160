//! The lines of what a request posted.

ghost use Rattle.std.specs.Prelude.{◌≡◌, ◌++◌, flat_map, is_ok, IfOk, OnOk};
ghost use Rattle.day_totals.specs.Totals.{same_leg};
ghost use Rattle.acq_book.specs.Calls.{Looks};
ghost use Rattle.acq_book.specs.Promise.{CountsFault};
ghost use Rattle.acq_inquiry.specs.PostingLines.{is_posting_of, leg_words, moved_words};
ghost use Rattle.acq_inquiry.specs.PostingLines.{posted_words, posting_line};
ghost use Rattle.acq_inquiry.specs.PostingLines.{shares_reference};
ghost use Rattle.acq_inquiry.specs.KeptPostings.{lines_with};

use crate::kept_postings::KeptPostings;
use crate::line_parts::{put_number, put_start};
use acq_book::{Book, BookFault, Visit};
use acq_core::{Posting, Request};
use day_totals::Leg;
use std::alloc::{AllocError, Global};

/// The lines of the postings that a request made.
#[derive(Drop)]
struct PostingLines<'r> {
    request: &'r Request,
    text: Vec<u8>,
    /// Memory ran out.
    is_short: bool,
}

impl Visit<(u64, Posting)> for PostingLines<'_> {
    ghost use Rattle.acq_inquiry.specs.Gathering.{PutsPosting};

    ghost sees = { PutsPosting };

    fn row(&mut self, row: &(u64, Posting)) -> bool {
        match put_posting_line(&mut self.text, self.request, row.0, &row.1) {
            Ok(()) => true,
            Err(AllocError) => {
                self.is_short = true;
                false
            }
        }
    }
}

/// The lines of what a request posted, in order of the postings' numbers: of those that are kept of
/// its day, and of those behind the last that was gone over.
pub(crate) fn posting_lines<B: Book>(
    alloc: Global,
    book: &mut B,
    kept: &KeptPostings<'_>,
    row: &Request,
) -> Result<Vec<u8>, BookFault>
    ensures text { B.is_honest book.new → B.is_open book.old → IfOk result (λ text.
        text.items ≡ lines_with kept.now.days.now (B.tables book.old) row.now) }
    ensures looks { Looks B.Book book.old book.new (is_ok result) }
    ensures store { CountsFault result (B.failures book.old) (B.failures book.new) }
{
    let (number, postings) = kept.of(row.day);
    let mut text = Vec::new(alloc);
    put_posting_lines(&mut text, row, postings)?;
    let mut lines = PostingLines {
        request: row,
        text,
        is_short: false,
    };
    book.walk_postings_above(row.key.merchant, row.day, number, &mut lines)?;
    if lines.is_short {
        return Err(BookFault::Memory);
    }
    Ok(lines.text)
}

/// Puts the lines of those of these postings that a request made.
fn put_posting_lines(
    text: &mut Vec<u8>,
    row: &Request,
    postings: &[(u64, Posting)],
) -> Result<(), AllocError>
    ensures { OnOk result (text.new.items
        ≡ text.old.items ++ flat_map (posting_line row.now) postings.now) }
{
    for posted in postings {
        put_posting_line(text, row, posted.0, &posted.1)?;
    }
    Ok(())
}

/// Puts the line of a posting, if a request made it.
fn put_posting_line(
    text: &mut Vec<u8>,
    row: &Request,
    number: u64,
    posting: &Posting,
) -> Result<(), AllocError>
    ensures { OnOk result (text.new.items
        ≡ text.old.items ++ posting_line row.now (number, posting.now)) }
{
    if is_posting_of(row, posting) {
        put_start(text, row)?;
        put_posted_words(text, number, posting)?;
        text.extend_from_slice(b"\n")?;
    }
    Ok(())
}

/// Whether a request made a posting of its merchant and day.
fn is_posting_of(row: &Request, posting: &Posting) -> bool
    ensures { result ≡ is_posting_of row.now posting.now }
{
    posting.terminal == row.key.terminal
        && posting.trace == row.key.trace
        && is_same_leg(posting.leg, row.leg)
        && shares_reference(row, posting)
}

fn is_same_leg(leg: Leg, other: Leg) -> bool
    ensures { result ≡ same_leg leg other }
{
    leg == other
}

/// Whether a posting has a request's reference, or that of the request which it follows.
fn shares_reference(row: &Request, posting: &Posting) -> bool
    ensures { result ≡ shares_reference row.now posting.now }
{
    row.reference.is_some_and(|own| own == posting.reference)
        || row
            .follows
            .is_some_and(|followed| followed == posting.reference)
}

/// Puts what was posted.
fn put_posted_words(text: &mut Vec<u8>, number: u64, posting: &Posting) -> Result<(), AllocError>
    ensures { OnOk result (text.new.items
        ≡ text.old.items ++ posted_words (number, posting.now)) }
{
    text.extend_from_slice(b"posted on ")?;
    text.extend_from_slice(&posting.day.date_text())?;
    text.extend_from_slice(b" as number ")?;
    put_number(text, number)?;
    put_moved_words(text, posting)
}

/// Puts what a posting moved.
fn put_moved_words(text: &mut Vec<u8>, posting: &Posting) -> Result<(), AllocError>
    ensures { OnOk result (text.new.items ≡ text.old.items ++ moved_words posting.now) }
{
    text.extend_from_slice(b": ")?;
    text.extend_from_slice(leg_words(posting.leg))?;
    text.extend_from_slice(b" of ")?;
    put_number(text, posting.amount.number())
}

fn leg_words(leg: Leg) -> &'static [u8]
    ensures { result.now ≡ leg_words leg }
{
    match leg {
        Leg::Credit => b"credit",
        Leg::CreditReversal => b"credit reversal",
        Leg::Debit => b"debit",
        Leg::DebitReversal => b"debit reversal",
    }
}
