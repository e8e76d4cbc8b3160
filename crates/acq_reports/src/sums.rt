//! Whether the postings of a day add up to the totals that the book keeps of it.

ghost use Rattle.std.specs.Prelude.{◌≡◌, ◌⊎◌, ◌++◌, ◌∷◌, [], ℕ, List, is_ok, OnOk};
ghost use Rattle.std.specs.HashMap.{get};
ghost use Rattle.acq_core.specs.declared.posting.Posting as rows;
ghost use Rattle.acq_book.specs.Calls.{Looks};
ghost use Rattle.acq_book.specs.Keys.{merchant_eq};
ghost use Rattle.acq_book.specs.Promise.{HasRisen};
ghost use Rattle.acq_reports.specs.DaySums.{AddUpTo, AreSumsOf, idle_among, sums_at};
ghost use Rattle.acq_reports.specs.Faults.{StoreFailed, TellsFault};

use crate::merchant_sums::MerchantSums;
use acq_book::{Book, BookFault, Visit};
use acq_core::{MerchantId, Posting};
use day_totals::Day;
use std::alloc::{AllocError, Global};
use std::collections::HashMap;

/// The sums of the postings that were handed over, by merchant, unless memory ran out.
#[derive(Drop)]
struct Sums {
    /// Each merchant that has a posting, in the order of their first ones, and then idle ones.
    merchants: Vec<MerchantId>,
    by_merchant: HashMap<MerchantId, MerchantSums>,
    is_short: bool,
}

impl Visit<(u64, Posting)> for Sums {
    ghost use Rattle.acq_reports.specs.DaySums.{AddsOne};

    ghost sees = { AddsOne };

    fn row(&mut self, row: &(u64, Posting)) -> bool {
        match self.add(&row.1) {
            Ok(()) => true,
            Err(AllocError) => {
                self.is_short = true;
                false
            }
        }
    }
}

impl Sums {
    /// Counts one more posting.
    fn add(&mut self, posting: &Posting) -> Result<(), AllocError>
        ensures sums { OnOk result ((number : ℕ) → (rows : List (ℕ × rows.Posting))
            → AreSumsOf rows self.old.by_merchant
            → AreSumsOf (rows ++ (number, posting.now) ∷ []) self.new.by_merchant) }
        ensures is_short { self.new.is_short ≡ self.old.is_short }
    {
        let merchant = posting.merchant;
        if !self.by_merchant.contains_key(&merchant) {
            self.merchants.push(merchant)?;
        }
        let mut sums = sums_at(&self.by_merchant, merchant);
        sums.add(posting.leg, posting.amount.number());
        self.by_merchant.insert(merchant, sums)?;
        Ok(())
    }

    /// Adds those of these merchants that have no posting.
    fn add_idle(&mut self, alloc: Global, names: &[MerchantId]) -> Result<(), AllocError>
        ensures merchants { OnOk result (self.new.merchants.items
            ≡ self.old.merchants.items ++ idle_among names.now self.old.by_merchant) }
        ensures sums { self.new.by_merchant ≡ self.old.by_merchant }
    {
        let by_merchant = &self.by_merchant;
        let idle = names
            .iter()
            .copied()
            .filter(|name| !by_merchant.contains_key(name))
            .collect::<Vec<MerchantId>>(alloc)?;
        self.merchants.extend_from_slice(&idle)
    }
}

/// A merchant's sums.
fn sums_at(by_merchant: &HashMap<MerchantId, MerchantSums>, merchant: MerchantId) -> MerchantSums
    ensures { result ≡ sums_at (get merchant_eq by_merchant.now merchant) }
{
    match by_merchant.get(&merchant) {
        Some(sums) => *sums,
        None => MerchantSums::none(),
    }
}

/// Compares the postings of a day, of which its clearing file is made, with the totals that the
/// book keeps of it, of which its settlement report is: for each merchant that has a posting, and
/// for these besides. Where they differ it fails with `Store`: another program or the disk has
/// changed a row.
#[tactic(auto, using(crate::proofs::Chains::looks_more, crate::proofs::Chains::failed_later))]
pub fn check_sums<B: Book>(
    alloc: Global,
    book: &mut B,
    day: Day,
    enrolled: &[MerchantId],
) -> Result<(), BookFault>
    ensures looks { Looks B.Book book.old book.new (is_ok result) }
    ensures store { TellsFault result (StoreFailed B.Book book.old book.new)
        (B.failures book.old) (B.failures book.new) }
{
    let mut sums = Sums {
        merchants: Vec::new(alloc),
        by_merchant: HashMap::new(alloc),
        is_short: false,
    };
    book.walk_postings(day, &mut sums)?;
    if sums.is_short {
        return Err(BookFault::Memory);
    }
    sums.add_idle(alloc, enrolled)?;
    check_totals(book, day, sums.merchants.as_slice(), &sums.by_merchant)
}

/// Compares the sums of these merchants with their totals of a day.
#[tactic(auto, using(crate::proofs::Chains::looks_more))]
fn check_totals<B: Book>(
    book: &mut B,
    day: Day,
    names: &[MerchantId],
    by_merchant: &HashMap<MerchantId, MerchantSums>,
) -> Result<(), BookFault>
    ensures looks { Looks B.Book book.old book.new (is_ok result) }
    ensures store { TellsFault result (HasRisen (B.failures book.old) (B.failures book.new)
        ⊎ ¬ (B.is_honest book.new × B.is_open book.old
        × AddUpTo (B.tables book.old) day by_merchant.now))
        (B.failures book.old) (B.failures book.new) }
{
    for name in names.iter() {
        let totals = book.totals(*name, day)?;
        if sums_at(by_merchant, *name) != MerchantSums::of(&totals) {
            return Err(BookFault::Store);
        }
    }
    Ok(())
}
