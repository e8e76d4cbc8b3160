//! A book that notes what it is asked for.

use acq_book::{Book, BookFault, Visit};
use acq_core::{
    Change, Currency, FirstReference, Limit, Looked, Merchant, MerchantId, Posting, Reconciliation,
    Request, Terminal, Wanted,
};
use acq_recall::Lenient;
use card_no::{IssuerId, Range};
use day_totals::Day;
use std::alloc::Global;

/// A book that has every merchant, each with every terminal, and one range; it keeps nothing. What
/// it is asked for is noted, a word each.
#[derive(Drop)]
pub struct AskedBook {
    alloc: Global,
    pub asked: String,
    /// Whether changes and groups fail.
    fails: bool,
}

impl AskedBook {
    /// It was asked for nothing yet.
    pub fn new(alloc: Global) -> AskedBook {
        AskedBook {
            alloc,
            asked: String::new(alloc),
            fails: false,
        }
    }

    fn note(&mut self, word: &str) {
        // Without memory a row differs.
        if !self.asked.is_empty() {
            let _ = self.asked.push_str(" ");
        }
        let _ = self.asked.push_str(word);
    }

    fn note_wanted(&mut self, wanted: &Wanted) {
        for (is_wanted, word) in [
            (wanted.merchant.is_some(), "merchant"),
            (wanted.terminal.is_some(), "terminal"),
            (wanted.key.is_some(), "key"),
            (wanted.original.is_some(), "original"),
            (wanted.reference.is_some(), "reference"),
            (wanted.prefix.is_some(), "prefix"),
            (wanted.bounds.is_some(), "bounds"),
            (wanted.admitted, "admitted"),
            (wanted.used_day.is_some(), "used"),
            (wanted.totals_day.is_some(), "totals"),
        ] {
            if is_wanted {
                self.note(word);
            }
        }
    }

    /// What it has of what is wanted.
    fn found(&self, wanted: &Wanted) -> Option<Looked> {
        let mut looked = Looked::nothing(Day::from_number(0)?, Limit::from_number(1)?);
        looked.merchant = wanted.merchant.and_then(merchant_named);
        looked.has_terminal = wanted.terminal.is_some();
        if wanted.prefix.is_some() {
            looked.range = only_range(self.alloc);
        }
        Some(looked)
    }
}

/// The merchant of a name.
fn merchant_named(id: MerchantId) -> Option<Merchant> {
    Some(Merchant {
        id,
        currency: Currency::read(b"978")?,
        first_reference: FirstReference::from_number(1)?,
    })
}

/// Its range. Without memory there is none, and a row differs.
fn only_range(alloc: Global) -> Option<Range> {
    Some(Range {
        low: 40_000_000,
        high: 49_999_999,
        issuer: IssuerId::from_slice(alloc, b"12345").ok()?,
        hold_days: 7,
    })
}

impl Book for AskedBook {
    ghost use Rattle.acq_core.specs.Tables.{new_tables};

    ghost tables = { λ b. new_tables (record { limit = 1; first_day = 0 }) };

    ghost is_honest = { λ b. ⊥ };

    ghost is_open = { λ b. ⊥ };

    ghost is_within = { λ b began faults. ⊥ };

    ghost can_return = { λ b began faults. ⊥ };

    ghost may_leave = { λ b t. ⊥ };

    ghost leaves_books = { λ b. ⊥ };

    ghost failures = { λ b. 0 };

    ghost store_faults = { λ b. 0 };

    ghost has_room = { λ b. ⊥ };

    ghost honest = { λ b is. is };

    ghost settled = { λ b is. absurd is };

    ghost stored = { λ b is. is };

    ghost past = { λ b is. absurd is };

    ghost past_within = { λ b began faults is. absurd is };

    ghost returns = { λ b began faults is. is };

    fn look_up(&mut self, wanted: &Wanted) -> Result<Looked, BookFault> {
        self.note_wanted(wanted);
        self.found(wanted).ok_or(BookFault::Memory)
    }

    fn terminal_count(&mut self) -> Result<u64, BookFault> {
        self.note("terminals");
        Ok(0)
    }

    fn range_count(&mut self) -> Result<u64, BookFault> {
        self.note("ranges");
        Ok(1)
    }

    /// It is asked behind each step.
    fn used_on(&mut self, _day: Day) -> Result<u64, BookFault> {
        self.note("|");
        Ok(0)
    }

    fn pending(&mut self, _day: Day) -> Result<u64, BookFault> {
        self.note("pending");
        Ok(0)
    }

    fn waiting_count(&mut self) -> Result<u64, BookFault> {
        self.note("waiting");
        Ok(0)
    }

    /// Behind it changes and groups fail, or don't any more.
    fn last_reconciliation(
        &mut self,
        _merchant: MerchantId,
        _day: Day,
    ) -> Result<Option<Reconciliation>, BookFault> {
        self.fails = !self.fails;
        Ok(None)
    }

    fn walk_postings<V: Visit<(u64, Posting)>>(
        &mut self,
        _day: Day,
        _visitor: &mut V,
    ) -> Result<(), BookFault> {
        Ok(())
    }

    fn walk_postings_above<V: Visit<(u64, Posting)>>(
        &mut self,
        _merchant: MerchantId,
        _day: Day,
        _number: u64,
        _visitor: &mut V,
    ) -> Result<(), BookFault> {
        Ok(())
    }

    fn walk_postings_behind<V: Visit<(u64, Posting)>>(
        &mut self,
        _merchant: MerchantId,
        _day: Day,
        _visitor: &mut V,
    ) -> Result<(), BookFault> {
        Ok(())
    }

    fn walk_merchants<V: Visit<Merchant>>(&mut self, _visitor: &mut V) -> Result<(), BookFault> {
        Ok(())
    }

    fn walk_terminals<V: Visit<Terminal>>(&mut self, _visitor: &mut V) -> Result<(), BookFault> {
        Ok(())
    }

    fn walk_ranges<V: Visit<Range>>(&mut self, _visitor: &mut V) -> Result<(), BookFault> {
        Ok(())
    }

    fn walk_holds<V: Visit<Request>>(
        &mut self,
        _merchant: MerchantId,
        _visitor: &mut V,
    ) -> Result<(), BookFault> {
        Ok(())
    }

    fn walk_pending<V: Visit<Request>>(&mut self, _visitor: &mut V) -> Result<(), BookFault> {
        self.note("walk");
        Ok(())
    }

    fn walk_requests_behind<V: Visit<Request>>(
        &mut self,
        _rows: u64,
        _visitor: &mut V,
    ) -> Result<(), BookFault> {
        Ok(())
    }

    fn apply(&mut self, change: &Change) -> Result<(), BookFault> {
        self.apply_any(change)
    }

    fn begin(&mut self) -> Result<(), BookFault> {
        Ok(())
    }

    fn keep(&mut self) -> Result<(), BookFault> {
        if self.fails {
            Err(BookFault::Memory)
        } else {
            Ok(())
        }
    }

    fn give_up(&mut self) {}
}

impl Lenient for AskedBook {
    fn apply_any(&mut self, _change: &Change) -> Result<(), BookFault> {
        if self.fails {
            Err(BookFault::Memory)
        } else {
            Ok(())
        }
    }
}
