//! Postings, with the sums of each merchant's days.

ghost use Rattle.std.specs.Prelude.{◌≡◌, ◌+◌, ◌<◌, ◌≤◌, ◌^◌, [], Some, ◌==◌, if◌then◌else◌};
ghost use Rattle.std.specs.Prelude.{filter, map, nat_lt, ◌&&◌, IfSome, IfOk, OnOk};
ghost use Rattle.std.specs.Cmp.Lexicographic.{slice_cmp};
ghost use Rattle.std.specs.Map.Iter.{deref};
ghost use Rattle.std.specs.Ordering.{nat_cmp, is_lt};
ghost use Rattle.std.specs.Str.{bytes_eq};
ghost use Rattle.indexmap.specs.IndexMap.{get, spare};
ghost use Rattle.day_totals.specs.Totals.{IsWithinLimits, with_leg_amount};
ghost use Rattle.acq_core.specs.Tables.{postings_of, totals_on, with_next_posting};
ghost use Rattle.acq_lists.specs.Keys.{day_eq};
ghost use Rattle.acq_lists.specs.Sums.{sums_at, with_one};

use crate::day_sums::DaySums;
use crate::merchant_day::MerchantDay;
use crate::put::put;
use acq_core::{Amount, MerchantId, Posting};
use day_totals::{Day, Leg, Totals};
use indexmap::IndexMap;
use std::alloc::{AllocError, Global};
use std::hash::RandomState;
use std::marker::Model;

/// The postings, each with its number, in the order in which they came.
#[derive(Drop)]
pub struct Postings {
    rows: Vec<(u64, Posting)>,
    sums: IndexMap<MerchantDay, DaySums, RandomState>,
    /// So many more take no memory.
    room: usize,
}

impl Model for Postings {
    ghost use Rattle.std.specs.Prelude.{ℕ};
    ghost use Rattle.acq_core.specs.declared.posting.Posting.{Posting};
    ghost use Rattle.acq_lists.specs.Stored.{Stored};
    ghost use Rattle.acq_lists.specs.Indexes.{HasPostings};

    ghost Value = { Stored (ℕ × Posting) };

    ghost view = { λ s. record { rows = s.rows.items; room = s.room } };

    ghost invariant = { HasPostings };
}

impl Postings {
    /// No postings. It takes no memory.
    pub fn new(alloc: Global, keys: RandomState) -> Postings
        ensures { result.rows ≡ [] }
    {
        Postings {
            rows: Vec::new(alloc),
            sums: IndexMap::with_hasher(alloc, keys),
            room: 0,
        }
    }

    /// A merchant's totals of a day.
    pub fn totals(&self, merchant: MerchantId, day: Day) -> Totals
        ensures { result ≡ totals_on (postings_of merchant self.now.rows) day }
    {
        sums_of(&self.sums, &MerchantDay { merchant, day }).totals
    }

    /// The postings of a day, in the order in which they came.
    pub fn of_day(&self, alloc: Global, day: Day) -> Result<Vec<&(u64, Posting)>, AllocError>
        ensures { IfOk result (λ rows.
            map deref rows.items ≡ filter (λ row. row.1.day == day) self.now.rows) }
    {
        self.rows
            .iter()
            .filter(|row| row.1.day == day)
            .collect(alloc)
    }

    /// Those of a merchant and day with numbers above one, in the order in which they came.
    pub fn above(
        &self,
        alloc: Global,
        merchant: MerchantId,
        day: Day,
        number: u64,
    ) -> Result<Vec<&(u64, Posting)>, AllocError>
        ensures { IfOk result (λ rows. map deref rows.items
            ≡ filter (λ row. bytes_eq row.1.merchant merchant && (row.1.day == day)
            && nat_lt number row.0) self.now.rows) }
    {
        self.rows
            .iter()
            .filter(|row| row.1.merchant == merchant && row.1.day == day && number < row.0)
            .collect(alloc)
    }

    /// Those of a day of the merchants whose names are behind one, in the order in which they came.
    pub fn behind(
        &self,
        alloc: Global,
        merchant: MerchantId,
        day: Day,
    ) -> Result<Vec<&(u64, Posting)>, AllocError>
        ensures { IfOk result (λ rows. map deref rows.items
            ≡ filter (λ row. (row.1.day == day)
            && is_lt (slice_cmp nat_cmp merchant row.1.merchant)) self.now.rows) }
    {
        self.rows
            .iter()
            .filter(|row| row.1.day == day && is_behind(row.1.merchant, merchant))
            .collect(alloc)
    }

    /// Makes room for one more, and a copy of it, where there is one.
    pub fn reserve_for(
        &mut self,
        alloc: Global,
        posting: &Option<Posting>,
    ) -> Result<Option<Posting>, AllocError>
        ensures rows { self.new.rows ≡ self.old.rows }
        ensures room { OnOk result (0 < self.new.room) }
        ensures copy { IfOk result (λ copy. copy ≡ posting.now) }
    {
        self.rows.reserve(1)?;
        self.sums.reserve(1)?;
        self.room = 1;
        posting_copied(alloc, posting)
    }

    /// One more posting, if there is one. Its day has room for it.
    pub fn push_if(&mut self, posting: Option<Posting>)
        requires room { 0 < self.old.room }
        requires fits { IfSome posting (λ p. IsWithinLimits (with_leg_amount
            (totals_on (postings_of p.merchant self.old.rows) p.day) p.leg p.amount)) }
        ensures rows { self.new.rows ≡ with_next_posting self.old.rows posting }
        ensures room { self.old.room ≤ self.new.room + 1 }
    {
        if let Some(posting) = posting {
            self.push(posting);
        }
    }

    /// One more posting, which gets its number. Its day has room for it.
    fn push(&mut self, posting: Posting)
        requires room { 0 < self.old.room }
        requires fits { IsWithinLimits (with_leg_amount
            (totals_on (postings_of posting.merchant self.old.rows) posting.day)
            posting.leg posting.amount) }
        ensures rows { self.new.rows ≡ with_next_posting self.old.rows (Some posting) }
        ensures room { self.old.room ≤ self.new.room + 1 }
    {
        let day = MerchantDay {
            merchant: posting.merchant,
            day: posting.day,
        };
        let number = count_posting(&mut self.sums, &day, posting.leg, posting.amount);
        self.rows.push((number, posting)).unwrap();
        self.room -= 1;
    }
}

/// Whether a merchant's name is behind another one.
fn is_behind(merchant: MerchantId, other: MerchantId) -> bool
    ensures { result ≡ is_lt (slice_cmp nat_cmp other merchant) }
{
    other.to_bytes().cmp(&merchant.to_bytes()).is_lt()
}

fn sums_of(sums: &IndexMap<MerchantDay, DaySums, RandomState>, day: &MerchantDay) -> DaySums
    ensures { result ≡ sums_at (get day_eq sums.now day.now) }
{
    match sums.get(day) {
        Some(sums) => *sums,
        None => DaySums {
            posted: 0,
            totals: Totals::zero(),
        },
    }
}

/// Counts one posting more of a merchant's day, and returns its number.
fn count_posting(
    sums: &mut IndexMap<MerchantDay, DaySums, RandomState>,
    day: &MerchantDay,
    leg: Leg,
    amount: Amount,
) -> u64
    requires room { 0 < spare sums.old }
    requires small { (sums_at (get day_eq sums.old day.now)).posted < 2 ^ 63 }
    requires fits { IsWithinLimits
        (with_leg_amount (sums_at (get day_eq sums.old day.now)).totals leg amount) }
    ensures number { result ≡ (sums_at (get day_eq sums.old day.now)).posted + 1 }
    ensures sums { (k : MerchantDay) → sums_at (get day_eq sums.new k)
        ≡ (if day_eq day.now k then with_one (sums_at (get day_eq sums.old day.now)) leg amount
        else sums_at (get day_eq sums.old k)) }
    ensures spare { spare sums.old ≤ spare sums.new + 1 }
{
    let more = with_one(sums_of(sums, day), leg, amount);
    let number = more.posted;
    put(sums, *day, more);
    number
}

fn with_one(old: DaySums, leg: Leg, amount: Amount) -> DaySums
    requires small { old.posted < 2 ^ 63 }
    requires fits { IsWithinLimits (with_leg_amount old.totals leg amount) }
    ensures { result ≡ with_one old leg amount }
{
    let mut totals = old.totals;
    totals.add(leg, amount.number());
    DaySums {
        posted: old.posted + 1,
        totals,
    }
}

/// A copy of a posting, where there is one.
fn posting_copied(alloc: Global, posting: &Option<Posting>) -> Result<Option<Posting>, AllocError>
    ensures { IfOk result (λ copy. copy ≡ posting.now) }
{
    match posting {
        Some(posting) => Ok(Some(posting.copied(alloc)?)),
        None => Ok(None),
    }
}
