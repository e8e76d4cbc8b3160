//! A book in SQL that writes a request once, as it ends.

ghost use Rattle.std.specs.Prelude.{◌≡◌, None};

mod behind;
mod showing;

use crate::once_book::behind::change_behind;
use crate::once_book::showing::show_held;
use crate::sql_book::SqlBook;
use acq_book::{Book, BookFault, Visit};
use acq_core::{
    Change, Looked, Merchant, MerchantId, Posting, Reconciliation, Request, Status, Terminal,
    Wanted,
};
use acq_recall::Lenient;
use card_no::Range;
use day_totals::Day;
use sqlite::Alter;
use std::alloc::Global;

/// A book in SQL. Within a group it holds a request back that was recorded last and waits for its
/// issuer's answer: where that answer is the next change, the request is written as it ends, in one
/// statement, with one raise of the running totals. Look-ups see the request that is held back;
/// before another change, and before the group is kept, it is written.
#[derive(Drop)]
pub struct OnceBook<S: Alter> {
    alloc: Global,
    pub(crate) book: SqlBook<S>,
    held: Option<Request>,
}

impl<S: Alter> OnceBook<S> {
    /// Over this book.
    pub fn new(alloc: Global, book: SqlBook<S>) -> OnceBook<S>
        ensures book { result.book ≡ book }
        ensures held { result.held ≡ None }
    {
        OnceBook {
            alloc,
            book,
            held: None,
        }
    }

    /// The book. A request that is held back is let go, as the group is that it is of.
    pub fn into_book(self) -> SqlBook<S>
        ensures { result ≡ self.book }
    {
        self.book
    }
}

impl<S: Alter> Book for OnceBook<S> {
    ghost use Rattle.acq_sql.specs.Holding as holding;
    ghost use Rattle.acq_sql.specs.Opened as opened;
    ghost use Rattle.acq_sql.specs.HeldLaws.{past_recorded, past_with_none, settled_shown};
    ghost use Rattle.acq_sql.specs.Laws.{returnable, stored_at};

    ghost tables = { λ b. holding.shown S.Store b.book b.held };

    ghost is_honest = { λ b. opened.is_honest S.Store b.book };

    ghost is_open = { λ b. holding.is_open S.Store b.book b.held };

    ghost is_within = { λ b. holding.is_within S.Store b.book b.held };

    ghost can_return = { λ b. opened.can_return S.Store b.book };

    ghost may_leave = { λ b. opened.may_leave S.Store b.book };

    ghost leaves_books = { λ b. opened.leaves_books S.Store b.book };

    ghost failures = { λ b. b.book.failures };

    ghost store_faults = { λ b. opened.store_faults S.Store b.book };

    ghost has_room = { λ b. holding.has_room S.Store b.book b.held };

    ghost honest = { λ b is. is.0.opened.clean };

    // In a law the store is known by its members alone.
    ghost settled = { λ b is. settled_shown (record {
      view = S.Store.view;
      faults = S.Store.faults;
      recovers = S.Store.recovers;
      is_shielded = S.Store.is_shielded;
      is_step = S.Store.is_step;
      blamed = S.Store.blamed;
      names = S.Store.names;
    }) S.Store.settled b.book b.held is };

    ghost stored = { λ b is. stored_at (record {
      view = S.Store.view;
      faults = S.Store.faults;
      recovers = S.Store.recovers;
      is_shielded = S.Store.is_shielded;
      is_step = S.Store.is_step;
      blamed = S.Store.blamed;
      names = S.Store.names;
    }) S.Store.settled b.book is.0 };

    ghost past = { λ b is. past_with_none b.held is.1 is.0.opened.past };

    ghost past_within = { λ b began faults is. past_recorded b.held is.1 is.0.past };

    ghost returns = { λ b began faults is. returnable is.0 };

    fn look_up(&mut self, wanted: &Wanted) -> Result<Looked, BookFault> {
        let mut looked = self.book.look_up(wanted)?;
        match show_held(self.alloc, &self.held, wanted, &mut looked) {
            Ok(()) => Ok(looked),
            Err(_) => {
                drop(looked);
                Err(BookFault::Memory)
            }
        }
    }

    fn terminal_count(&mut self) -> Result<u64, BookFault> {
        self.book.terminal_count()
    }

    fn range_count(&mut self) -> Result<u64, BookFault> {
        self.book.range_count()
    }

    fn used_on(&mut self, day: Day) -> Result<u64, BookFault> {
        self.book.used_on(day)
    }

    fn pending(&mut self, day: Day) -> Result<u64, BookFault> {
        self.book.pending(day)
    }

    fn waiting_count(&mut self) -> Result<u64, BookFault> {
        self.book.waiting_count()
    }

    fn last_reconciliation(
        &mut self,
        merchant: MerchantId,
        day: Day,
    ) -> Result<Option<Reconciliation>, BookFault> {
        self.book.last_reconciliation(merchant, day)
    }

    fn walk_postings<V: Visit<(u64, Posting)>>(
        &mut self,
        day: Day,
        visitor: &mut V,
    ) -> Result<(), BookFault> {
        self.book.walk_postings(day, visitor)
    }

    fn walk_postings_above<V: Visit<(u64, Posting)>>(
        &mut self,
        merchant: MerchantId,
        day: Day,
        number: u64,
        visitor: &mut V,
    ) -> Result<(), BookFault> {
        self.book
            .walk_postings_above(merchant, day, number, visitor)
    }

    fn walk_postings_behind<V: Visit<(u64, Posting)>>(
        &mut self,
        merchant: MerchantId,
        day: Day,
        visitor: &mut V,
    ) -> Result<(), BookFault> {
        self.book.walk_postings_behind(merchant, day, visitor)
    }

    fn walk_merchants<V: Visit<Merchant>>(&mut self, visitor: &mut V) -> Result<(), BookFault> {
        self.book.walk_merchants(visitor)
    }

    fn walk_terminals<V: Visit<Terminal>>(&mut self, visitor: &mut V) -> Result<(), BookFault> {
        self.book.walk_terminals(visitor)
    }

    fn walk_ranges<V: Visit<Range>>(&mut self, visitor: &mut V) -> Result<(), BookFault> {
        self.book.walk_ranges(visitor)
    }

    fn walk_holds<V: Visit<Request>>(
        &mut self,
        merchant: MerchantId,
        visitor: &mut V,
    ) -> Result<(), BookFault> {
        self.book.walk_holds(merchant, visitor)
    }

    fn walk_pending<V: Visit<Request>>(&mut self, visitor: &mut V) -> Result<(), BookFault> {
        self.book.walk_pending(visitor)
    }

    fn walk_requests_behind<V: Visit<Request>>(
        &mut self,
        rows: u64,
        visitor: &mut V,
    ) -> Result<(), BookFault> {
        self.book.walk_requests_behind(rows, visitor)
    }

    fn apply(&mut self, change: &Change) -> Result<(), BookFault> {
        self.apply_any(change)
    }

    fn begin(&mut self) -> Result<(), BookFault> {
        self.book.begin()
    }

    fn keep(&mut self) -> Result<(), BookFault> {
        let Some(held) = self.held.take() else {
            return self.book.keep();
        };
        match self.book.record(&held) {
            Ok(()) => self.book.keep(),
            Err(fault) => {
                self.book.give_up();
                Err(fault)
            }
        }
    }

    fn give_up(&mut self) {
        self.held = None;
        self.book.give_up();
    }
}

impl<S: Alter> Lenient for OnceBook<S> {
    fn apply_any(&mut self, change: &Change) -> Result<(), BookFault> {
        if let Some(held) = self.held.take() {
            return change_behind(&mut self.book, self.alloc, held, change);
        }
        match change {
            Change::AddRequest(request) if self.book.is_in_group() && waits(request) => {
                self.held = Some(request.copied(self.alloc)?);
                Ok(())
            }
            _ => self.book.apply_any(change),
        }
    }
}

/// Whether a request waits for its issuer's answer. What it writes of the end of a hold comes with
/// that.
fn waits(request: &Request) -> bool {
    matches!(request.status, Status::Pending) && request.hold_end.is_none()
}
