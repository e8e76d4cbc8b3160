//! Books that fail.

ghost use Rattle.std.specs.Prelude.{◌≡◌};

use acq_book::{Book, BookFault, Visit};
use acq_core::{
    Change, Looked, Merchant, MerchantId, Posting, Reconciliation, Request, Terminal, Wanted,
};
use card_no::Range;
use day_totals::Day;

/// A book that refuses one call that changes it, as where memory runs out there: a change, or a
/// group's beginning or end. A group that isn't kept shuts a book in memory.
#[derive(Drop)]
pub struct FailingBook<B: Book + Drop> {
    book: B,
    /// How many calls go before the one that is refused, if one is.
    left: Option<u64>,
    has_refused: bool,
    is_shut: bool,
    /// How many groups were kept.
    kept: u64,
}

impl<B: Book + Drop> FailingBook<B> {
    /// This book, of which the call behind so many is refused, if one is.
    pub fn new(book: B, left: Option<u64>) -> FailingBook<B>
        ensures { result.book ≡ book }
    {
        FailingBook {
            book,
            left,
            has_refused: false,
            is_shut: false,
            kept: 0,
        }
    }

    /// Whether it refused a call.
    pub fn has_refused(&self) -> bool {
        self.has_refused
    }

    /// How many groups were kept.
    pub fn kept(&self) -> u64 {
        self.kept
    }

    /// Whether a group was given up.
    pub fn is_shut(&self) -> bool {
        self.is_shut
    }

    /// The book.
    pub fn into_book(self) -> B
        ensures { result ≡ self.book }
    {
        self.book
    }

    /// Whether this call is refused.
    fn refuses(&mut self) -> bool
        ensures { self.new.book ≡ self.old.book }
    {
        match self.left {
            Some(left) => {
                self.left = left.checked_sub(1);
                self.has_refused = self.has_refused || left == 0;
                left == 0
            }
            None => false,
        }
    }
}

impl<B: Book + Drop> Book for FailingBook<B> {
    ghost use Rattle.simulator.specs.Failing as failing;

    ghost tables = { failing.tables B.Book };

    ghost is_honest = { failing.is_honest B.Book };

    ghost is_open = { failing.is_open B.Book };

    ghost is_within = { failing.is_within B.Book };

    ghost can_return = { failing.can_return B.Book };

    ghost may_leave = { failing.may_leave B.Book };

    ghost leaves_books = { failing.leaves_books B.Book };

    ghost failures = { failing.failures B.Book };

    ghost store_faults = { failing.store_faults B.Book };

    ghost has_room = { failing.has_room B.Book };

    ghost honest = { λ f is. B.honest f.book is };

    ghost settled = { λ f is. B.settled f.book is };

    ghost stored = { λ f is. B.stored f.book is };

    ghost past = { λ f is. B.past f.book is };

    ghost past_within = { λ f began faults is. B.past_within f.book began faults is };

    ghost returns = { λ f began faults is. B.returns f.book began faults is };

    fn look_up(&mut self, wanted: &Wanted) -> Result<Looked, BookFault> {
        self.book.look_up(wanted)
    }

    fn terminal_count(&mut self) -> Result<u64, BookFault> {
        self.book.terminal_count()
    }

    fn range_count(&mut self) -> Result<u64, BookFault> {
        self.book.range_count()
    }

    fn used_on(&mut self, day: Day) -> Result<u64, BookFault> {
        self.book.used_on(day)
    }

    fn pending(&mut self, day: Day) -> Result<u64, BookFault> {
        self.book.pending(day)
    }

    fn waiting_count(&mut self) -> Result<u64, BookFault> {
        self.book.waiting_count()
    }

    fn last_reconciliation(
        &mut self,
        merchant: MerchantId,
        day: Day,
    ) -> Result<Option<Reconciliation>, BookFault> {
        self.book.last_reconciliation(merchant, day)
    }

    fn walk_postings<V: Visit<(u64, Posting)>>(
        &mut self,
        day: Day,
        visitor: &mut V,
    ) -> Result<(), BookFault> {
        self.book.walk_postings(day, visitor)
    }

    fn walk_postings_above<V: Visit<(u64, Posting)>>(
        &mut self,
        merchant: MerchantId,
        day: Day,
        number: u64,
        visitor: &mut V,
    ) -> Result<(), BookFault> {
        self.book
            .walk_postings_above(merchant, day, number, visitor)
    }

    fn walk_postings_behind<V: Visit<(u64, Posting)>>(
        &mut self,
        merchant: MerchantId,
        day: Day,
        visitor: &mut V,
    ) -> Result<(), BookFault> {
        self.book.walk_postings_behind(merchant, day, visitor)
    }

    fn walk_merchants<V: Visit<Merchant>>(&mut self, visitor: &mut V) -> Result<(), BookFault> {
        self.book.walk_merchants(visitor)
    }

    fn walk_terminals<V: Visit<Terminal>>(&mut self, visitor: &mut V) -> Result<(), BookFault> {
        self.book.walk_terminals(visitor)
    }

    fn walk_ranges<V: Visit<Range>>(&mut self, visitor: &mut V) -> Result<(), BookFault> {
        self.book.walk_ranges(visitor)
    }

    fn walk_holds<V: Visit<Request>>(
        &mut self,
        merchant: MerchantId,
        visitor: &mut V,
    ) -> Result<(), BookFault> {
        self.book.walk_holds(merchant, visitor)
    }

    fn walk_pending<V: Visit<Request>>(&mut self, visitor: &mut V) -> Result<(), BookFault> {
        self.book.walk_pending(visitor)
    }

    fn walk_requests_behind<V: Visit<Request>>(
        &mut self,
        rows: u64,
        visitor: &mut V,
    ) -> Result<(), BookFault> {
        self.book.walk_requests_behind(rows, visitor)
    }

    fn apply(&mut self, change: &Change) -> Result<(), BookFault> {
        if self.refuses() {
            return Err(BookFault::Memory);
        }
        self.book.apply(change)
    }

    fn begin(&mut self) -> Result<(), BookFault> {
        if self.refuses() {
            return Err(BookFault::Memory);
        }
        self.book.begin()
    }

    fn keep(&mut self) -> Result<(), BookFault> {
        if self.refuses() {
            self.give_up();
            return Err(BookFault::Memory);
        }
        let kept = self.book.keep();
        if kept.is_ok() {
            self.kept = self.kept.wrapping_add(1);
        }
        kept
    }

    fn give_up(&mut self) {
        self.is_shut = true;
        self.book.give_up();
    }
}
