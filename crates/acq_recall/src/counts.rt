//! How many requests merchants have.

ghost use Rattle.std.specs.Prelude.{◌≡◌, ◌⊎◌, ◌+◌, ◌++◌, ◌∷◌, [], ℕ, List, Some, IfSome};
ghost use Rattle.std.specs.Prelude.{true, false};
ghost use Rattle.indexmap.specs.IndexMap.{get};
ghost use Rattle.acq_core.specs.declared.request.Request.{Request};
ghost use Rattle.acq_core.specs.Tables.{admitted_in, requests_of, used_in};
ghost use Rattle.acq_book.specs.Keys.{merchant_eq};
ghost use Rattle.acq_lists.specs.declared.merchant_day.MerchantDay.{MerchantDay};
ghost use Rattle.acq_lists.specs.Keys.{day_eq};
ghost use Rattle.acq_recall.specs.Counts.{IsAdmitted, IsUsed, RecallsCounts};
ghost use Rattle.acq_recall.specs.Kept.{CountsOneMore, SaysOf};

use crate::bounded_map::BoundedMap;
use acq_core::{AdmittedCount, MerchantId, Request, UsedCount};
use acq_lists::MerchantDay;
use day_totals::Day;
use std::alloc::Global;
use std::hash::RandomState;

/// How many of a merchant's requests were admitted, and how many of its messages count against the
/// limit of a day.
#[derive(Drop)]
pub(crate) struct Counts {
    admitted: BoundedMap<MerchantId, AdmittedCount>,
    used: BoundedMap<MerchantDay, UsedCount>,
}

impl Counts {
    /// Nothing is known. It takes no memory.
    pub fn nothing(alloc: Global, keys: RandomState) -> Counts
        ensures { (rows : List Request) → RecallsCounts result rows }
    {
        Counts {
            admitted: BoundedMap::new(alloc, keys),
            used: BoundedMap::new(alloc, keys),
        }
    }

    /// How many of a merchant's requests were admitted, if it is known.
    pub fn admitted(&self, merchant: MerchantId) -> Option<AdmittedCount>
        ensures { (rows : List Request) → RecallsCounts self.now rows
            → IfSome result (λ n. n ≡ admitted_in (requests_of merchant rows)) }
    {
        self.admitted.get(&merchant).copied()
    }

    /// How many of its messages count against the limit of a day, if it is known.
    pub fn used(&self, merchant: MerchantId, day: Day) -> Option<UsedCount>
        ensures { (rows : List Request) → RecallsCounts self.now rows
            → IfSome result (λ n. n ≡ used_in (requests_of merchant rows) day) }
    {
        self.used.get(&MerchantDay { merchant, day }).copied()
    }

    /// Notes how many were admitted.
    pub fn note_admitted(&mut self, merchant: MerchantId, count: AdmittedCount)
        ensures learns { (rows : List Request) → count ≡ admitted_in (requests_of merchant rows)
            → RecallsCounts self.old rows → RecallsCounts self.new rows }
        ensures keeps { (rows : List Request)
            → RecallsCounts self.new rows → RecallsCounts self.old rows }
    {
        self.admitted.note(&merchant, count);
    }

    /// Notes how many count against the limit of a day.
    pub fn note_used(&mut self, merchant: MerchantId, day: Day, count: UsedCount)
        ensures learns { (rows : List Request) → count ≡ used_in (requests_of merchant rows) day
            → RecallsCounts self.old rows → RecallsCounts self.new rows }
        ensures keeps { (rows : List Request)
            → RecallsCounts self.new rows → RecallsCounts self.old rows }
    {
        self.used.note(&MerchantDay { merchant, day }, count);
    }

    /// One more request comes.
    pub fn add(&mut self, request: &Request)
        ensures { (rows : List Request) → RecallsCounts self.old rows
            → RecallsCounts self.new (rows ++ request.now ∷ []) }
    {
        count_admitted(&mut self.admitted, request);
        count_used(&mut self.used, request);
    }

    /// Makes room for what comes, if there is none.
    pub fn make_room(&mut self)
        ensures { (rows : List Request)
            → RecallsCounts self.old rows → RecallsCounts self.new rows }
    {
        self.admitted.make_room();
        self.used.make_room();
    }

    /// Another day begins: the counts of the one before are seldom asked for.
    pub fn forget_days(&mut self)
        ensures { (rows : List Request)
            → RecallsCounts self.old rows → RecallsCounts self.new rows }
    {
        self.used.clear();
    }

    /// Lets all go.
    pub fn forget(&mut self)
        ensures { (rows : List Request) → RecallsCounts self.new rows }
    {
        self.admitted.clear();
        self.used.clear();
    }
}

/// One more request comes, which may have been admitted.
fn count_admitted(counts: &mut BoundedMap<MerchantId, AdmittedCount>, request: &Request)
    ensures { (rows : List Request) → SaysOf (IsAdmitted rows) (get merchant_eq counts.old.entries)
        → SaysOf (IsAdmitted (rows ++ request.now ∷ [])) (get merchant_eq counts.new.entries) }
{
    if request.reference.is_some() {
        admit_one(counts, &request.key.merchant);
    }
}

/// One more request comes, which may count against the limit of its day.
fn count_used(counts: &mut BoundedMap<MerchantDay, UsedCount>, request: &Request)
    ensures { (rows : List Request) → SaysOf (IsUsed rows) (get day_eq counts.old.entries)
        → SaysOf (IsUsed (rows ++ request.now ∷ [])) (get day_eq counts.new.entries) }
{
    if request.admitted {
        let merchant = request.key.merchant;
        let day = request.day;
        use_one(counts, &MerchantDay { merchant, day });
    }
}

/// One more request of a merchant was admitted.
fn admit_one(counts: &mut BoundedMap<MerchantId, AdmittedCount>, merchant: &MerchantId)
    ensures { CountsOneMore merchant_eq (get merchant_eq counts.old.entries)
        (get merchant_eq counts.new.entries) merchant.now }
{
    let Some(count) = counts.get(merchant).copied() else {
        return;
    };
    match AdmittedCount::from_number(count.number() + 1) {
        Some(more) => counts.set(merchant, more),
        None => counts.forget(merchant),
    }
}

/// One more message of a merchant counts against the limit of a day.
fn use_one(counts: &mut BoundedMap<MerchantDay, UsedCount>, day: &MerchantDay)
    ensures { CountsOneMore day_eq (get day_eq counts.old.entries)
        (get day_eq counts.new.entries) day.now }
{
    let Some(count) = counts.get(day).copied() else {
        return;
    };
    match UsedCount::from_number(count.number() + 1) {
        Some(more) => counts.set(day, more),
        None => counts.forget(day),
    }
}
