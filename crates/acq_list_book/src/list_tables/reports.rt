//! What reports need of the lists.

ghost use Rattle.std.specs.Prelude.{◌≡◌, map, IfOk};
ghost use Rattle.std.specs.Map.Iter.{deref};
ghost use Rattle.acq_book.specs.Lookups.{terminal_count_at, range_count_at, used_on_at, pending_at};
ghost use Rattle.acq_book.specs.Lookups.{waiting_count_at, last_reconciliation_at};
ghost use Rattle.acq_book.specs.Lookups.{postings_at, postings_above_at, postings_behind_at};
ghost use Rattle.acq_book.specs.Lookups.{merchants_at, terminals_at, ranges_at};
ghost use Rattle.acq_book.specs.Lookups.{holds_at, waiting_at, requests_behind_at};

use crate::list_tables::ListTables;
use crate::walks::{
    in_order_of_names, in_order_of_numbers, in_order_of_references, in_order_of_terminals,
};
use acq_core::{Merchant, MerchantId, Posting, Reconciliation, Request, Terminal};
use card_no::Range;
use day_totals::Day;
use std::alloc::AllocError;

impl ListTables {
    /// How many terminals there are.
    pub(crate) fn terminal_count(&self) -> u64
        ensures { result ≡ terminal_count_at self.now }
    {
        self.terminals.count()
    }

    /// How many ranges there are.
    pub(crate) fn range_count(&self) -> u64
        ensures { result ≡ range_count_at self.now }
    {
        self.ranges.as_slice().len() as u64
    }

    /// How many messages count against the limit of a day.
    pub(crate) fn used_on(&self, day: Day) -> u64
        ensures { result ≡ used_on_at self.now day }
    {
        self.requests.used_on(day)
    }

    /// How many requests of a day are pending.
    pub(crate) fn pending(&self, day: Day) -> u64
        ensures { result ≡ pending_at self.now day }
    {
        self.requests.pending(day)
    }

    /// How many requests wait for their issuer's answer.
    pub(crate) fn waiting_count(&self) -> u64
        ensures { result ≡ waiting_count_at self.now }
    {
        self.requests.waiting_count()
    }

    /// The merchant's last reconciliation of a day.
    pub(crate) fn last_reconciliation(
        &self,
        merchant: MerchantId,
        day: Day,
    ) -> Option<Reconciliation>
        ensures { result ≡ last_reconciliation_at self.now merchant day }
    {
        self.reconciliations.last(merchant, day)
    }

    /// The postings of a day, in order of merchant and number.
    pub(crate) fn postings(&self, day: Day) -> Result<Vec<&(u64, Posting)>, AllocError>
        ensures { IfOk result (λ rows. map deref rows.items ≡ postings_at self.now day) }
    {
        in_order_of_numbers(self.postings.of_day(self.alloc, day))
    }

    /// Those of a merchant and day with numbers above one, in order of number.
    pub(crate) fn postings_above(
        &self,
        merchant: MerchantId,
        day: Day,
        number: u64,
    ) -> Result<Vec<&(u64, Posting)>, AllocError>
        ensures { IfOk result (λ rows.
            map deref rows.items ≡ postings_above_at self.now merchant day number) }
    {
        in_order_of_numbers(self.postings.above(self.alloc, merchant, day, number))
    }

    /// Those of a day of the merchants whose names are behind one, in order of merchant and number.
    pub(crate) fn postings_behind(
        &self,
        merchant: MerchantId,
        day: Day,
    ) -> Result<Vec<&(u64, Posting)>, AllocError>
        ensures { IfOk result (λ rows.
            map deref rows.items ≡ postings_behind_at self.now merchant day) }
    {
        in_order_of_numbers(self.postings.behind(self.alloc, merchant, day))
    }

    /// The merchants, in order of their names.
    pub(crate) fn merchants(&self) -> Result<Vec<&Merchant>, AllocError>
        ensures { IfOk result (λ rows. map deref rows.items ≡ merchants_at self.now) }
    {
        in_order_of_names(self.merchants.all(self.alloc))
    }

    /// The terminals of all merchants, in order of merchant and name.
    pub(crate) fn terminals(&self) -> Result<Vec<&Terminal>, AllocError>
        ensures { IfOk result (λ rows. map deref rows.items ≡ terminals_at self.now) }
    {
        in_order_of_terminals(self.terminals.all(self.alloc))
    }

    /// The ranges, in order of low.
    pub(crate) fn ranges(&self) -> Result<Vec<&Range>, AllocError>
        ensures { IfOk result (λ rows. map deref rows.items ≡ ranges_at self.now) }
    {
        self.ranges.as_slice().iter().collect(self.alloc)
    }

    /// The merchant's approved holds, in order of reference.
    pub(crate) fn holds(&self, merchant: MerchantId) -> Result<Vec<&Request>, AllocError>
        ensures { IfOk result (λ rows. map deref rows.items ≡ holds_at self.now merchant) }
    {
        in_order_of_references(self.requests.holds(self.alloc, merchant))
    }

    /// The requests that wait, in the order in which they came.
    pub(crate) fn waiting(&self) -> Result<Vec<&Request>, AllocError>
        ensures { IfOk result (λ rows. map deref rows.items ≡ waiting_at self.now) }
    {
        self.requests.waiting(self.alloc)
    }

    /// The requests behind so many rows, in the order in which they came.
    pub(crate) fn requests_behind(&self, rows: u64) -> Result<Vec<&Request>, AllocError>
        ensures { IfOk result (λ those.
            map deref those.items ≡ requests_behind_at self.now rows) }
    {
        self.requests.behind(self.alloc, rows)
    }
}
