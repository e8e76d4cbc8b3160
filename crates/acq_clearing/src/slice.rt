//! A clearing file in slices.

ghost use Rattle.std.specs.Prelude.{◌≡◌, ◌++◌, [], false, is_ok, IfOk};
ghost use Rattle.acq_book.specs.Calls.{Looks};
ghost use Rattle.acq_book.specs.Promise.{CountsFault};
ghost use Rattle.acq_clearing.specs.Slices.{file_from, header_at};

use crate::bookmark::Bookmark;
use crate::clearing_file::{HEADER, posting_text};
use acq_book::{Book, BookFault, Visit};
use acq_core::Posting;
use day_totals::Day;
use std::alloc::{AllocError, Global};

/// A slice ends behind the record with which it has so many bytes, some sixty records: a query reads
/// 2 rows ahead, then 8 and 64, and then 512.
pub(crate) const ENOUGH: usize = 5120;

/// A piece of a clearing file, and where the next one begins.
#[derive(Drop)]
pub struct Slice {
    pub text: Vec<u8>,
    pub next: Bookmark,
}

/// A day's clearing file from a bookmark on: some sixty records, or all that are left; at its
/// beginning the header, too. What follows is the file from the next bookmark on, as long as the
/// day's postings stay. Whether the day is over, `check_day` says.
#[tactic(auto, using(acq_book::proofs::Chains::looks_more))]
pub fn clearing_slice<B: Book>(
    alloc: Global,
    book: &mut B,
    day: Day,
    from: Bookmark,
) -> Result<Slice, BookFault>
    ensures text { B.is_honest book.new → B.is_open book.old → IfOk result (λ slice.
        slice.text.items ++ file_from (B.tables book.old) day slice.next
        ≡ file_from (B.tables book.old) day from) }
    ensures looks { Looks B.Book book.old book.new (is_ok result) }
    ensures store { CountsFault result (B.failures book.old) (B.failures book.new) }
{
    let mut records = Records::begin(alloc, from)?;
    match &from {
        Bookmark::Beginning => book.walk_postings(day, &mut records)?,
        Bookmark::Behind(merchant, number) => {
            book.walk_postings_above(*merchant, day, *number, &mut records)?;
            if records.wants_more() {
                book.walk_postings_behind(*merchant, day, &mut records)?;
            }
        }
        Bookmark::End => {}
    }
    records.cut()
}

/// The records of a slice.
#[derive(Drop)]
struct Records {
    alloc: Global,
    text: Vec<u8>,
    /// Where the last record stands.
    last: Bookmark,
    /// Memory ran out.
    is_short: bool,
}

impl Records {
    ghost use Rattle.acq_clearing.specs.Gathering.{Cuts, wants_more};

    /// None yet, from a bookmark on.
    fn begin(alloc: Global, from: Bookmark) -> Result<Records, AllocError>
        ensures text { IfOk result (λ records. records.text.items ≡ header_at from) }
        ensures memory { IfOk result (λ records. records.is_short ≡ false) }
    {
        let mut text = Vec::new(alloc);
        if let Bookmark::Beginning = &from {
            text.extend_from_slice(HEADER)?;
        }
        Ok(Records {
            alloc,
            text,
            last: from,
            is_short: false,
        })
    }

    /// Whether the slice is to have more.
    fn wants_more(&self) -> bool
        ensures { result ≡ wants_more self.now }
    {
        !self.is_short && self.text.len() < ENOUGH
    }

    /// The slice: the last one, if there was room for more.
    fn cut(self) -> Result<Slice, BookFault>
        ensures { Cuts self result }
    {
        if self.is_short {
            return Err(BookFault::Memory);
        }
        let next = if self.text.len() < ENOUGH {
            Bookmark::End
        } else {
            self.last
        };
        Ok(Slice {
            text: self.text,
            next,
        })
    }
}

impl Visit<(u64, Posting)> for Records {
    ghost use Rattle.acq_clearing.specs.Gathering.{Gathers};

    ghost sees = { Gathers };

    fn row(&mut self, row: &(u64, Posting)) -> bool {
        let Ok(record) = posting_text(self.alloc, row) else {
            self.is_short = true;
            return false;
        };
        if self.text.extend_from_slice(record.as_slice()).is_err() {
            self.is_short = true;
            return false;
        }
        self.last = Bookmark::Behind(row.1.merchant, row.0);
        self.wants_more()
    }
}
