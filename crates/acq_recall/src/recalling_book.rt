//! A book in front of which things are recalled.

ghost use Rattle.std.specs.Prelude.{◌≡◌};
ghost use Rattle.acq_core.specs.Tables.{Tables};
ghost use Rattle.acq_book.specs.Groups.{GivesWithinBy};
ghost use Rattle.acq_book.specs.Looked.{IsLooked};
ghost use Rattle.acq_book.specs.Promise.{GivesBy};
ghost use Rattle.acq_recall.specs.Recalled.{Recalls};

use crate::collecting::Collecting;
use crate::known::asks_nothing;
use crate::lenient::Lenient;
use crate::recollection::Recollection;
use crate::waiting::MOST_WAITING;
use acq_book::{Book, BookFault, Visit};
use acq_core::{
    Change, Looked, Merchant, MerchantId, Posting, Reconciliation, Request, Terminal, Wanted,
};
use card_no::Range;
use day_totals::Day;
use std::alloc::Global;
use std::hash::RandomState;

/// A book, and what is recalled of its tables. Where an event asks for something that is known, the
/// book isn't asked.
#[derive(Drop)]
pub struct RecallingBook<B: Book + Drop> {
    alloc: Global,
    book: B,
    recalled: Recollection,
}

impl<B: Book + Drop> RecallingBook<B> {
    /// This book, of which nothing is recalled yet. Terminals choose much of what is found by hash,
    /// so the keys of the hashes are random ones.
    pub fn new(alloc: Global, keys: RandomState, book: B) -> RecallingBook<B>
        ensures book { result.book ≡ book }
        ensures recalls { (t : Tables) → Recalls result.recalled t }
    {
        RecallingBook {
            alloc,
            book,
            recalled: Recollection::nothing(alloc, keys),
        }
    }

    /// The book.
    pub fn into_book(self) -> B
        ensures { result ≡ self.book }
    {
        self.book
    }
}

impl<B: Lenient + Drop> Book for RecallingBook<B> {
    ghost use Rattle.acq_recall.specs.Recalling as recalling;

    ghost tables = { recalling.tables B.Book };

    ghost is_honest = { recalling.is_honest B.Book };

    ghost is_open = { recalling.is_open B.Book };

    ghost is_within = { recalling.is_within B.Book };

    ghost can_return = { recalling.can_return B.Book };

    ghost may_leave = { recalling.may_leave B.Book };

    ghost leaves_books = { recalling.leaves_books B.Book };

    ghost failures = { recalling.failures B.Book };

    ghost store_faults = { recalling.store_faults B.Book };

    ghost has_room = { recalling.has_room B.Book };

    ghost honest = { λ r is. B.honest r.book is.0 };

    ghost settled = { λ r is. B.settled r.book is.0 };

    ghost stored = { λ r is. B.stored r.book is.0 };

    ghost past = { λ r is. B.past r.book is.0 };

    ghost past_within = { λ r began faults is. B.past_within r.book began faults is.0 };

    ghost returns = { λ r began faults is. B.returns r.book began faults is.0 };

    fn look_up(&mut self, wanted: &Wanted) -> Result<Looked, BookFault> {
        let known = self.recalled.known(self.alloc, wanted)?;
        let rest = known.rest(wanted);
        let mut looked = self.look_up_rest(&rest)?;
        known.fill(&mut looked);
        Ok(looked)
    }

    fn terminal_count(&mut self) -> Result<u64, BookFault> {
        if let Some(count) = self.recalled.enrolled_counts.terminals {
            return Ok(count);
        }
        let count = self.book.terminal_count()?;
        self.recalled.enrolled_counts.terminals = Some(count);
        Ok(count)
    }

    fn range_count(&mut self) -> Result<u64, BookFault> {
        if let Some(count) = self.recalled.enrolled_counts.ranges {
            return Ok(count);
        }
        let count = self.book.range_count()?;
        self.recalled.enrolled_counts.ranges = Some(count);
        Ok(count)
    }

    fn used_on(&mut self, day: Day) -> Result<u64, BookFault> {
        self.book.used_on(day)
    }

    fn pending(&mut self, day: Day) -> Result<u64, BookFault> {
        self.learn_waiting()?;
        if self.recalled.waiting.are_known() {
            return Ok(self.recalled.waiting.count_of(day));
        }
        self.book.pending(day)
    }

    fn waiting_count(&mut self) -> Result<u64, BookFault> {
        self.learn_waiting()?;
        if self.recalled.waiting.are_known() {
            return Ok(self.recalled.waiting.count());
        }
        self.book.waiting_count()
    }

    fn last_reconciliation(
        &mut self,
        merchant: MerchantId,
        day: Day,
    ) -> Result<Option<Reconciliation>, BookFault> {
        self.book.last_reconciliation(merchant, day)
    }

    fn walk_postings<V: Visit<(u64, Posting)>>(
        &mut self,
        day: Day,
        visitor: &mut V,
    ) -> Result<(), BookFault> {
        self.book.walk_postings(day, visitor)
    }

    fn walk_postings_above<V: Visit<(u64, Posting)>>(
        &mut self,
        merchant: MerchantId,
        day: Day,
        number: u64,
        visitor: &mut V,
    ) -> Result<(), BookFault> {
        self.book
            .walk_postings_above(merchant, day, number, visitor)
    }

    fn walk_postings_behind<V: Visit<(u64, Posting)>>(
        &mut self,
        merchant: MerchantId,
        day: Day,
        visitor: &mut V,
    ) -> Result<(), BookFault> {
        self.book.walk_postings_behind(merchant, day, visitor)
    }

    fn walk_merchants<V: Visit<Merchant>>(&mut self, visitor: &mut V) -> Result<(), BookFault> {
        self.book.walk_merchants(visitor)
    }

    fn walk_terminals<V: Visit<Terminal>>(&mut self, visitor: &mut V) -> Result<(), BookFault> {
        self.book.walk_terminals(visitor)
    }

    fn walk_ranges<V: Visit<Range>>(&mut self, visitor: &mut V) -> Result<(), BookFault> {
        self.book.walk_ranges(visitor)
    }

    fn walk_holds<V: Visit<Request>>(
        &mut self,
        merchant: MerchantId,
        visitor: &mut V,
    ) -> Result<(), BookFault> {
        self.book.walk_holds(merchant, visitor)
    }

    fn walk_pending<V: Visit<Request>>(&mut self, visitor: &mut V) -> Result<(), BookFault> {
        self.learn_waiting()?;
        if self.recalled.waiting.are_known() {
            self.recalled.waiting.show(visitor);
            return Ok(());
        }
        self.book.walk_pending(visitor)
    }

    fn walk_requests_behind<V: Visit<Request>>(
        &mut self,
        rows: u64,
        visitor: &mut V,
    ) -> Result<(), BookFault> {
        self.book.walk_requests_behind(rows, visitor)
    }

    fn apply(&mut self, change: &Change) -> Result<(), BookFault> {
        let made = self.book.apply_any(change);
        match made {
            Ok(()) => self.recalled.follow(self.alloc, change),
            Err(_) => self.recalled.forget(),
        }
        made
    }

    fn begin(&mut self) -> Result<(), BookFault> {
        self.book.begin()
    }

    fn keep(&mut self) -> Result<(), BookFault> {
        let kept = self.book.keep();
        if kept.is_err() {
            self.recalled.forget();
        }
        kept
    }

    fn give_up(&mut self) {
        self.book.give_up();
        self.recalled.forget();
    }
}

impl<B: Lenient + Drop> RecallingBook<B> {
    ghost use Rattle.acq_recall.specs.Recalling as recalling;

    /// Looks up what isn't known, and learns it.
    fn look_up_rest(&mut self, rest: &Wanted) -> Result<Looked, BookFault>
        ensures gives { GivesBy (recalling.tables B.Book) (recalling.is_honest B.Book)
            (recalling.is_open B.Book) (recalling.may_leave B.Book)
            (recalling.leaves_books B.Book) (recalling.failures B.Book)
            (recalling.store_faults B.Book) (recalling.has_room B.Book) self.old self.new result
            (IsLooked (recalling.tables B.Book self.old) rest.now) }
        ensures within { GivesWithinBy (recalling.tables B.Book) (recalling.is_honest B.Book)
            (recalling.is_within B.Book) (recalling.can_return B.Book) self.old self.new result
            (IsLooked (recalling.tables B.Book self.old) rest.now) }
    {
        if asks_nothing(rest)
            && let Some((limit, today)) = self.recalled.row()
        {
            return Ok(Looked::nothing(today, limit));
        }
        let looked = self.book.look_up(rest)?;
        self.recalled.learn(self.alloc, rest, &looked);
        Ok(looked)
    }

    /// Learns which requests wait, if none is known and they aren't too many.
    fn learn_waiting(&mut self) -> Result<(), BookFault>
        ensures { GivesBy (recalling.tables B.Book) (recalling.is_honest B.Book)
            (recalling.is_open B.Book) (recalling.may_leave B.Book)
            (recalling.leaves_books B.Book) (recalling.failures B.Book)
            (recalling.store_faults B.Book) (recalling.has_room B.Book) self.old self.new result
            (λ done. Unit {0}) }
    {
        if !self.recalled.waiting.may_be_learned() {
            return Ok(());
        }
        let mut seen = Collecting::new(self.alloc, MOST_WAITING);
        self.book.walk_pending(&mut seen)?;
        match seen.into_rows() {
            Some(rows) => self.recalled.waiting.learn(rows),
            None => self.recalled.waiting.leave(),
        }
        Ok(())
    }
}
