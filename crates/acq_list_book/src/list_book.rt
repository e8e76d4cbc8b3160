//! A book in memory.

ghost use Rattle.std.specs.Prelude.{◌≡◌};
ghost use Rattle.acq_core.specs.Pasts.{HasPast};
ghost use Rattle.acq_core.specs.Tables.{new_tables};
ghost use Rattle.acq_list_book.specs.declared.group.Group.TheVariants.{Begun, NotBegun};
ghost use Rattle.acq_list_book.specs.Listed.{faults_of};

use crate::group::Group;
use crate::list_tables::ListTables;
use crate::walks::show;
use acq_book::{Book, BookFault, Visit};
use acq_core::{
    Change, Limit, Looked, Merchant, MerchantId, Posting, Reconciliation, Request, Terminal, Wanted,
};
use card_no::Range;
use day_totals::Day;
use std::alloc::Global;
use std::hash::RandomState;
use std::marker::Model;

/// The tables, in memory, and how far a group of changes has come. A group changes the tables
/// themselves, so one that is given up can't be undone: it shuts the book, as a fault of its store.
#[derive(Drop)]
pub struct ListBook {
    tables: ListTables,
    group: Group,
}

impl Model for ListBook {
    ghost use Rattle.acq_core.specs.Pasts.{HasPast};
    ghost use Rattle.acq_list_book.specs.Listed.{Listed};

    ghost Value = { Listed };

    ghost view = { λ b. record { tables = b.tables; group = b.group } };

    ghost invariant = { λ b. HasPast b.tables };
}

impl ListBook {
    /// A new book, in which no group is begun. It takes no memory. Terminals choose much of what
    /// rows are found by, so the keys of the hashes are random ones.
    pub fn new(alloc: Global, keys: RandomState, limit: Limit, first_day: Day) -> ListBook
        requires past { HasPast (new_tables (record { limit = limit; first_day = first_day })) }
        ensures { result ≡ record {
          tables = new_tables (record { limit = limit; first_day = first_day });
          group = NotBegun;
        } }
    {
        ListBook {
            tables: ListTables::new(alloc, keys, limit, first_day),
            group: Group::NotBegun,
        }
    }
}

impl Book for ListBook {
    ghost tables = { λ b. b.tables };

    ghost is_honest = { λ b. Unit {0} };

    ghost is_open = { λ b. (b.group ≡ NotBegun) × HasPast b.tables };

    ghost is_within = { λ b began faults.
        (b.group ≡ Begun) × ((faults ≡ 0) × HasPast b.tables) };

    ghost can_return = { λ b began faults. (b.group ≡ Begun) × (faults ≡ 0) };

    // Outside a group a stop leaves the tables, within one nothing.
    ghost may_leave = { λ b left. (b.group ≡ NotBegun) × (left ≡ b.tables) };

    ghost leaves_books = { λ b. Unit {0} };

    ghost failures = { λ b. 0 };

    ghost store_faults = { λ b. faults_of b.group };

    ghost has_room = { λ b. Unit {0} };

    ghost honest = { λ b is. tt };

    ghost settled = { λ b is left same. same.1 };

    ghost stored = { λ b is. tt };

    ghost past = { λ b is. is.1 };

    ghost past_within = { λ b began faults is. is.1.1 };

    ghost returns = { λ b began faults is. (is.0, is.1.0) };

    fn look_up(&mut self, wanted: &Wanted) -> Result<Looked, BookFault> {
        let mut looked = self.tables.look_up_values(wanted);
        match self.tables.look_up_rows(wanted, &mut looked) {
            Ok(()) => Ok(looked),
            Err(fault) => {
                drop(looked);
                Err(fault)
            }
        }
    }

    fn terminal_count(&mut self) -> Result<u64, BookFault> {
        Ok(self.tables.terminal_count())
    }

    fn range_count(&mut self) -> Result<u64, BookFault> {
        Ok(self.tables.range_count())
    }

    fn used_on(&mut self, day: Day) -> Result<u64, BookFault> {
        Ok(self.tables.used_on(day))
    }

    fn pending(&mut self, day: Day) -> Result<u64, BookFault> {
        Ok(self.tables.pending(day))
    }

    fn waiting_count(&mut self) -> Result<u64, BookFault> {
        Ok(self.tables.waiting_count())
    }

    fn last_reconciliation(
        &mut self,
        merchant: MerchantId,
        day: Day,
    ) -> Result<Option<Reconciliation>, BookFault> {
        Ok(self.tables.last_reconciliation(merchant, day))
    }

    fn walk_postings<V: Visit<(u64, Posting)>>(
        &mut self,
        day: Day,
        visitor: &mut V,
    ) -> Result<(), BookFault> {
        show(self.tables.postings(day), visitor)
    }

    fn walk_postings_above<V: Visit<(u64, Posting)>>(
        &mut self,
        merchant: MerchantId,
        day: Day,
        number: u64,
        visitor: &mut V,
    ) -> Result<(), BookFault> {
        show(self.tables.postings_above(merchant, day, number), visitor)
    }

    fn walk_postings_behind<V: Visit<(u64, Posting)>>(
        &mut self,
        merchant: MerchantId,
        day: Day,
        visitor: &mut V,
    ) -> Result<(), BookFault> {
        show(self.tables.postings_behind(merchant, day), visitor)
    }

    fn walk_merchants<V: Visit<Merchant>>(&mut self, visitor: &mut V) -> Result<(), BookFault> {
        show(self.tables.merchants(), visitor)
    }

    fn walk_terminals<V: Visit<Terminal>>(&mut self, visitor: &mut V) -> Result<(), BookFault> {
        show(self.tables.terminals(), visitor)
    }

    fn walk_ranges<V: Visit<Range>>(&mut self, visitor: &mut V) -> Result<(), BookFault> {
        show(self.tables.ranges(), visitor)
    }

    fn walk_holds<V: Visit<Request>>(
        &mut self,
        merchant: MerchantId,
        visitor: &mut V,
    ) -> Result<(), BookFault> {
        show(self.tables.holds(merchant), visitor)
    }

    fn walk_pending<V: Visit<Request>>(&mut self, visitor: &mut V) -> Result<(), BookFault> {
        show(self.tables.waiting(), visitor)
    }

    fn walk_requests_behind<V: Visit<Request>>(
        &mut self,
        rows: u64,
        visitor: &mut V,
    ) -> Result<(), BookFault> {
        show(self.tables.requests_behind(rows), visitor)
    }

    fn apply(&mut self, change: &Change) -> Result<(), BookFault> {
        match self.group {
            Group::NotBegun | Group::Begun => Ok(self.tables.make(change)?),
            Group::GivenUp => Err(BookFault::Memory),
        }
    }

    fn begin(&mut self) -> Result<(), BookFault> {
        match self.group {
            Group::NotBegun => self.group = Group::Begun,
            Group::Begun | Group::GivenUp => {}
        }
        Ok(())
    }

    fn keep(&mut self) -> Result<(), BookFault> {
        match self.group {
            Group::Begun => self.group = Group::NotBegun,
            Group::NotBegun | Group::GivenUp => {}
        }
        Ok(())
    }

    /// Shuts the book. To undo its changes, each group that goes well would have to keep what it
    /// changed; and a group here fails only where memory runs out, which ends the run anyway.
    fn give_up(&mut self) {
        match self.group {
            Group::Begun => self.group = Group::GivenUp,
            Group::NotBegun | Group::GivenUp => {}
        }
    }
}
