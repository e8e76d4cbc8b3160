//! Reconciliations, with the last of each merchant's days.

ghost use Rattle.std.specs.Prelude.{◌≡◌, ◌+◌, ◌<◌, ◌≤◌, ◌^◌, ◌==◌, ◌&&◌, ℕ, Option, Some, []};
ghost use Rattle.std.specs.Prelude.{filter, option_map, if◌then◌else◌, OnOk};
ghost use Rattle.std.specs.Option.{option_copied};
ghost use Rattle.std.specs.Str.{bytes_eq};
ghost use Rattle.indexmap.specs.IndexMap.{get, spare};
ghost use Rattle.acq_core.specs.Tables.{with_next_reconciliation};
ghost use Rattle.acq_lists.specs.Keys.{day_eq, day_of_reconciliation};
ghost use Rattle.acq_book.specs.Order.{last_of};
ghost use Rattle.acq_lists.specs.Sums.{number_in};

use crate::merchant_day::MerchantDay;
use crate::put::put;
use acq_core::{MerchantId, Reconciliation};
use day_totals::Day;
use indexmap::IndexMap;
use std::alloc::{AllocError, Global};
use std::hash::RandomState;
use std::marker::Model;

/// The reconciliations, each with its number, in the order in which they came.
#[derive(Drop)]
pub struct Reconciliations {
    rows: Vec<(u64, Reconciliation)>,
    /// The last of a merchant's day; its number is how many there are.
    last: IndexMap<MerchantDay, (u64, Reconciliation), RandomState>,
    /// So many more take no memory.
    room: usize,
}

impl Model for Reconciliations {
    ghost use Rattle.std.specs.Prelude.{ℕ};
    ghost use Rattle.acq_core.specs.declared.reconciliation.Reconciliation.{Reconciliation};
    ghost use Rattle.acq_lists.specs.Stored.{Stored};
    ghost use Rattle.acq_lists.specs.Indexes.{HasReconciliations};

    ghost Value = { Stored (ℕ × Reconciliation) };

    ghost view = { λ s. record { rows = s.rows.items; room = s.room } };

    ghost invariant = { HasReconciliations };
}

impl Reconciliations {
    /// No reconciliations. It takes no memory.
    pub fn new(alloc: Global, keys: RandomState) -> Reconciliations
        ensures { result.rows ≡ [] }
    {
        Reconciliations {
            rows: Vec::new(alloc),
            last: IndexMap::with_hasher(alloc, keys),
            room: 0,
        }
    }

    /// The merchant's last reconciliation of a day.
    pub fn last(&self, merchant: MerchantId, day: Day) -> Option<Reconciliation>
        ensures { result ≡ option_map (λ row. row.1) (last_of (filter
            (λ row. bytes_eq row.1.merchant merchant && (row.1.day == day)) self.now.rows)) }
    {
        match self.last.get(&MerchantDay { merchant, day }) {
            Some((_, row)) => Some(*row),
            None => None,
        }
    }

    /// Makes room for one more.
    pub fn reserve(&mut self) -> Result<(), AllocError>
        ensures rows { self.new.rows ≡ self.old.rows }
        ensures room { OnOk result (0 < self.new.room) }
    {
        self.rows.reserve(1)?;
        self.last.reserve(1)?;
        self.room = 1;
        Ok(())
    }

    /// One more reconciliation, which gets its number.
    pub fn push(&mut self, row: &Reconciliation)
        requires { 0 < self.old.room }
        ensures rows { self.new.rows ≡ with_next_reconciliation self.old.rows row.now }
        ensures room { self.old.room ≤ self.new.room + 1 }
    {
        let number = put_next(&mut self.last, row);
        self.rows.push((number, *row)).unwrap();
        self.room -= 1;
    }
}

/// The number of the last of a merchant's day, 0 where there is none.
fn number_of(
    last: &IndexMap<MerchantDay, (u64, Reconciliation), RandomState>,
    day: &MerchantDay,
) -> u64
    ensures { result ≡ number_in (get day_eq last.now day.now) }
{
    match last.get(day) {
        Some((number, _)) => *number,
        None => 0,
    }
}

/// Puts a row as the last of its merchant's day, and returns its number.
fn put_next(
    last: &mut IndexMap<MerchantDay, (u64, Reconciliation), RandomState>,
    row: &Reconciliation,
) -> u64
    requires room { 0 < spare last.old }
    requires small { number_in (get day_eq last.old (day_of_reconciliation row.now)) < 2 ^ 63 }
    ensures number { result ≡ number_in (get day_eq last.old (day_of_reconciliation row.now)) + 1 }
    ensures last { (k : MerchantDay) → get day_eq last.new k
        ≡ (if day_eq (day_of_reconciliation row.now) k then Some (result, row.now)
        else get day_eq last.old k) }
    ensures spare { spare last.old ≤ spare last.new + 1 }
{
    let day = MerchantDay {
        merchant: row.merchant,
        day: row.day,
    };
    let number = number_of(last, &day) + 1;
    put(last, day, (number, *row));
    number
}
