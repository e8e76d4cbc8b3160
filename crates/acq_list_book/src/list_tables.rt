//! The tables in memory.

ghost use Rattle.std.specs.Prelude.{◌≡◌, OnOk, OnErr};
ghost use Rattle.acq_core.specs.declared.change.Change.TheVariants as change;
ghost use Rattle.acq_core.specs.Tables.{after, new_tables};
ghost use Rattle.acq_book.specs.Fits.{Fits};

mod looking_up;
mod reports;

use acq_core::{
    Change, Limit, Merchant, Posting, Reconciliation, Remains, Request, RequestKey, Status,
    Terminal,
};
use acq_lists::{Merchants, Postings, Reconciliations, Requests, Terminals};
use card_no::{Range, RangeFault, RangeList};
use day_totals::Day;
use iso_codec::Message;
use std::alloc::{AllocError, Global};
use std::hash::RandomState;
use std::marker::Model;

/// The tables, in memory. Contracts see them alone. No look-up goes over all rows of a table, but
/// that of an overlap, which goes over the ranges, and those of the pending requests and the walks,
/// which serve reports.
#[derive(Drop)]
pub(crate) struct ListTables {
    alloc: Global,
    limit: Limit,
    day: Day,
    merchants: Merchants,
    terminals: Terminals,
    ranges: RangeList,
    requests: Requests,
    postings: Postings,
    reconciliations: Reconciliations,
}

impl Model for ListTables {
    ghost use Rattle.acq_core.specs.Tables.{Tables};

    ghost Value = { Tables };

    ghost view = { λ b. record {
      limit = b.limit;
      day = b.day;
      merchants = b.merchants.rows;
      terminals = b.terminals.rows;
      ranges = b.ranges;
      requests = b.requests.rows;
      postings = b.postings.rows;
      reconciliations = b.reconciliations.rows;
    } };
}

impl ListTables {
    /// The tables of a new book.
    pub(crate) fn new(alloc: Global, keys: RandomState, limit: Limit, first_day: Day) -> ListTables
        ensures { result ≡ new_tables (record { limit = limit; first_day = first_day }) }
    {
        ListTables {
            alloc,
            limit,
            day: first_day,
            merchants: Merchants::new(alloc, keys),
            terminals: Terminals::new(alloc, keys),
            ranges: RangeList::new(alloc),
            requests: Requests::new(alloc, keys),
            postings: Postings::new(alloc, keys),
            reconciliations: Reconciliations::new(alloc, keys),
        }
    }

    fn add_merchant(&mut self, merchant: Merchant) -> Result<(), AllocError>
        requires { Fits self.old (change.AddMerchant merchant) }
        ensures ok { OnOk result (self.new ≡ after self.old (change.AddMerchant merchant)) }
        ensures err { OnErr result (self.new ≡ self.old) }
    {
        self.merchants.reserve()?;
        self.merchants.push(merchant);
        Ok(())
    }

    fn add_terminal(&mut self, terminal: Terminal) -> Result<(), AllocError>
        requires { Fits self.old (change.AddTerminal terminal) }
        ensures ok { OnOk result (self.new ≡ after self.old (change.AddTerminal terminal)) }
        ensures err { OnErr result (self.new ≡ self.old) }
    {
        self.terminals.reserve()?;
        self.terminals.push(terminal);
        Ok(())
    }

    fn add_range(&mut self, range: &Range) -> Result<(), AllocError>
        requires { Fits self.old (change.AddRange range.now) }
        ensures ok { OnOk result (self.new ≡ after self.old (change.AddRange range.now)) }
        ensures err { OnErr result (self.new ≡ self.old) }
    {
        let range = range.copied(self.alloc)?;
        match self.ranges.add(range) {
            Ok(()) => Ok(()),
            Err(RangeFault::Memory) => Err(AllocError),
            Err(_) => unreachable!(),
        }
    }

    fn drop_range(&mut self, low: u32, high: u32)
        requires { Fits self.old (change.DropRange low high) }
        ensures { self.new ≡ after self.old (change.DropRange low high) }
    {
        let Ok(()) = self.ranges.remove(low, high) else {
            unreachable!();
        };
    }

    fn add_request(&mut self, row: &Request) -> Result<(), AllocError>
        requires { Fits self.old (change.AddRequest row.now) }
        ensures ok { OnOk result (self.new ≡ after self.old (change.AddRequest row.now)) }
        ensures err { OnErr result (self.new ≡ self.old) }
    {
        let row = self.requests.reserve_for(self.alloc, row)?;
        self.requests.push(row);
        Ok(())
    }

    fn answered(
        &mut self,
        key: &RequestKey,
        status: Status,
        reply: &Message,
        hold_end: Option<u64>,
        posting: &Option<Posting>,
    ) -> Result<(), AllocError>
        requires { Fits self.old
            (change.Answered key.now status reply.now hold_end posting.now) }
        ensures ok { OnOk result (self.new ≡ after self.old
            (change.Answered key.now status reply.now hold_end posting.now)) }
        ensures err { OnErr result (self.new ≡ self.old) }
    {
        let posting = self.postings.reserve_for(self.alloc, posting)?;
        let reply = reply.copied(self.alloc)?;
        self.requests.answer(key, status, reply, hold_end);
        self.postings.push_if(posting);
        Ok(())
    }

    fn follow(
        &mut self,
        request: &Request,
        original: &RequestKey,
        remains: Remains,
        posting: &Option<Posting>,
    ) -> Result<(), AllocError>
        requires { Fits self.old
            (change.Follow request.now original.now remains posting.now) }
        ensures ok { OnOk result (self.new ≡ after self.old
            (change.Follow request.now original.now remains posting.now)) }
        ensures err { OnErr result (self.new ≡ self.old) }
    {
        let posting = self.postings.reserve_for(self.alloc, posting)?;
        let request = self.requests.reserve_for(self.alloc, request)?;
        self.requests.follow(original, remains);
        self.requests.push(request);
        self.postings.push_if(posting);
        Ok(())
    }

    fn reconciled(
        &mut self,
        request: &Request,
        reconciliation: &Reconciliation,
    ) -> Result<(), AllocError>
        requires { Fits self.old (change.Reconciled request.now reconciliation.now) }
        ensures ok { OnOk result (self.new ≡ after self.old
            (change.Reconciled request.now reconciliation.now)) }
        ensures err { OnErr result (self.new ≡ self.old) }
    {
        self.reconciliations.reserve()?;
        let request = self.requests.reserve_for(self.alloc, request)?;
        self.requests.push(request);
        self.reconciliations.push(reconciliation);
        Ok(())
    }

    /// Makes all of a change, or none of it.
    pub(crate) fn make(&mut self, change: &Change) -> Result<(), AllocError>
        requires { Fits self.old change.now }
        ensures ok { OnOk result (self.new ≡ after self.old change.now) }
        ensures err { OnErr result (self.new ≡ self.old) }
    {
        match change {
            Change::AddMerchant(merchant) => self.add_merchant(*merchant),
            Change::AddTerminal(terminal) => self.add_terminal(*terminal),
            Change::AddRange(range) => self.add_range(range),
            Change::DropRange { low, high } => {
                self.drop_range(*low, *high);
                Ok(())
            }
            Change::SetDay(day) => {
                self.day = *day;
                Ok(())
            }
            Change::AddRequest(row) => self.add_request(row),
            Change::Answered {
                key,
                status,
                reply,
                hold_end,
                posting,
            } => self.answered(key, *status, reply, *hold_end, posting),
            Change::Follow {
                request,
                original,
                remains,
                posting,
            } => self.follow(request, original, *remains, posting),
            Change::Reconciled {
                request,
                reconciliation,
            } => self.reconciled(request, reconciliation),
        }
    }
}
