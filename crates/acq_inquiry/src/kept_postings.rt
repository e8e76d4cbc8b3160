//! What a search keeps of postings.

ghost use Rattle.std.specs.Prelude.{◌≡◌, find, is_ok, IfOk};
ghost use Rattle.std.specs.List.{All};
ghost use Rattle.std.specs.Option.{option_copied};
ghost use Rattle.acq_book.specs.Calls.{Looks};
ghost use Rattle.acq_book.specs.Promise.{CountsFault};
ghost use Rattle.acq_inquiry.specs.KeptPostings.{IsKept, is_on, kept_in};

use crate::keeping::Keeping;
use crate::posted_day::{PostedDay, postings_copied, put_day};
use acq_book::{Book, BookFault};
use acq_core::{MerchantId, Posting, Reference};
use acq_reports::goes_on;
use day_totals::Day;
use std::alloc::Global;

/// What is kept of a merchant's postings: of some days, those with one of these references.
#[derive(Clone, Copy)]
pub(crate) struct KeptPostings<'s> {
    pub(crate) merchant: MerchantId,
    pub(crate) references: &'s [Reference],
    pub(crate) days: &'s [PostedDay],
}

impl KeptPostings<'_> {
    /// Goes over the postings of these days behind those that were gone over; of each day to the
    /// last, or so many.
    pub(crate) fn go_on<B: Book>(
        &self,
        alloc: Global,
        book: &mut B,
        on: &[Day],
        end: Option<u64>,
    ) -> Result<Vec<PostedDay>, BookFault>
        ensures goes { B.is_honest book.new → B.is_open book.old
            → All (IsKept (B.tables book.old) self.now.merchant self.now.references.now)
            self.now.days.now
            → IfOk result (λ days. All (IsKept (B.tables book.old) self.now.merchant
            self.now.references.now) days.items) }
        ensures looks { Looks B.Book book.old book.new (is_ok result) }
        ensures store { CountsFault result (B.failures book.old) (B.failures book.new) }
    {
        let mut days = Vec::new(alloc);
        for day in on {
            let next = self.go_on_in(alloc, book, *day, end)?;
            put_day(&mut days, next)?;
        }
        Ok(days)
    }

    /// Goes over the postings of a day.
    fn go_on_in<B: Book>(
        &self,
        alloc: Global,
        book: &mut B,
        day: Day,
        end: Option<u64>,
    ) -> Result<PostedDay, BookFault>
        ensures goes { B.is_honest book.new → B.is_open book.old
            → All (IsKept (B.tables book.old) self.now.merchant self.now.references.now)
            self.now.days.now
            → IfOk result (IsKept (B.tables book.old) self.now.merchant
            self.now.references.now) }
        ensures looks { Looks B.Book book.old book.new (is_ok result) }
        ensures store { CountsFault result (B.failures book.old) (B.failures book.new) }
    {
        let (number, kept) = self.of(day);
        let postings = postings_copied(alloc, kept)?;
        let mut keeping = Keeping {
            alloc,
            references: self.references,
            postings,
            number,
            gone: 0,
            end,
            is_short: false,
        };
        book.walk_postings_above(self.merchant, day, number, &mut keeping)?;
        if keeping.is_short {
            return Err(BookFault::Memory);
        }
        Ok(PostedDay {
            day,
            number: keeping.number,
            postings: keeping.postings,
            is_at_end: goes_on(keeping.end, keeping.gone),
        })
    }

    /// The number of the last posting of a day that was gone over, and those that are kept.
    pub(crate) fn of(&self, day: Day) -> (u64, &[(u64, Posting)])
        ensures number { result.0 ≡ (kept_in self.now.days.now day).0 }
        ensures postings { result.1.now ≡ (kept_in self.now.days.now day).1 }
    {
        match self.day_of(day) {
            Some(at) => (at.number, at.postings.as_slice()),
            None => (0, &[]),
        }
    }

    /// What is kept of a day.
    fn day_of(&self, day: Day) -> Option<&PostedDay>
        ensures { option_copied result ≡ find (is_on day) self.now.days.now }
    {
        self.days.iter().find(|at| at.day == day)
    }
}
