//! What is recalled of what is wanted, and what is learned of what was looked up.

ghost use Rattle.std.specs.Prelude.{◌≡◌, true, IfOk, IfSome, Some, option_and_then};
ghost use Rattle.acq_message.specs.Elements.{or_empty};
ghost use Rattle.acq_core.specs.Known.{holds_if, number_if, used_if};
ghost use Rattle.acq_core.specs.Tables.{Tables};
ghost use Rattle.acq_book.specs.Looked.{IsLooked};
ghost use Rattle.acq_book.specs.Lookups.{admitted_at, has_terminal_at, merchant_at, range_at};
ghost use Rattle.acq_book.specs.Lookups.{referred_at, used_at};
ghost use Rattle.acq_recall.specs.Known.{IsKnown};
ghost use Rattle.acq_recall.specs.Recalled.{Recalls};

use crate::known::Known;
use crate::recollection::Recollection;
use acq_core::{
    AdmittedCount, Limit, Looked, Merchant, MerchantId, Reference, Request, TerminalId, UsedCount,
    Wanted,
};
use acq_lists::MerchantTerminal;
use card_no::{Prefix, Range};
use day_totals::Day;
use std::alloc::{AllocError, Global};

impl Recollection {
    /// How many messages of a merchant a day admits, and the business day, if they are known.
    pub fn row(&self) -> Option<(Limit, Day)>
        ensures { (t : Tables) → Recalls self.now t
            → IfSome result (λ row. row ≡ (t.limit, t.day)) }
    {
        self.row
    }

    /// What is recalled of what is wanted.
    pub fn known(&self, alloc: Global, wanted: &Wanted) -> Result<Known, AllocError>
        ensures { (t : Tables) → Recalls self.now t → IfOk result (IsKnown t wanted.now) }
    {
        let range = self.range(alloc, wanted.prefix)?;
        let referred = self.referred(alloc, wanted.merchant, wanted.reference)?;
        Ok(Known {
            merchant: self.merchant(wanted.merchant),
            has_terminal: self.has_terminal(wanted.merchant, wanted.terminal),
            referred,
            range,
            admitted: self.admitted(wanted),
            used: self.used(wanted.merchant, wanted.used_day),
        })
    }

    fn merchant(&self, id: Option<MerchantId>) -> Option<Merchant>
        ensures { (t : Tables) → Recalls self.now t
            → IfSome result (λ row. Some row ≡ option_and_then (merchant_at t) id) }
    {
        self.merchants.get(&id?).copied()
    }

    fn has_terminal(&self, merchant: Option<MerchantId>, id: Option<TerminalId>) -> bool
        ensures { (t : Tables) → Recalls self.now t → result ≡ true
            → true ≡ holds_if (has_terminal_at t (or_empty merchant))
            (option_and_then (λ _. id) merchant) }
    {
        match (merchant, id) {
            (Some(merchant), Some(id)) => {
                self.terminals
                    .get(&MerchantTerminal { merchant, id })
                    .is_some()
            }
            _ => false,
        }
    }

    fn range(&self, alloc: Global, prefix: Option<Prefix>) -> Result<Option<Range>, AllocError>
        ensures { (t : Tables) → Recalls self.now t → IfOk result (λ found.
            IfSome found (λ range. Some range ≡ option_and_then (range_at t) prefix)) }
    {
        let Some(prefix) = prefix else {
            return Ok(None);
        };
        match self.ranges.get(&prefix.number()) {
            Some(range) => Ok(Some(range.copied(alloc)?)),
            None => Ok(None),
        }
    }

    fn referred(
        &self,
        alloc: Global,
        merchant: Option<MerchantId>,
        reference: Option<Reference>,
    ) -> Result<Option<Request>, AllocError>
        ensures { (t : Tables) → Recalls self.now t → IfOk result (λ found.
            IfSome found (λ row. Some row ≡ option_and_then (referred_at t (or_empty merchant))
            (option_and_then (λ _. reference) merchant))) }
    {
        let (Some(merchant), Some(reference)) = (merchant, reference) else {
            return Ok(None);
        };
        match self.waiting.referred(merchant, reference) {
            Some(row) => Ok(Some(row.copied(alloc)?)),
            None => Ok(None),
        }
    }

    fn admitted(&self, wanted: &Wanted) -> Option<AdmittedCount>
        ensures { (t : Tables) → Recalls self.now t → IfSome result (λ n.
            n ≡ number_if wanted.now.admitted (admitted_at t (or_empty wanted.now.merchant))
            wanted.now.merchant) }
    {
        if !wanted.admitted {
            return None;
        }
        self.counts.admitted(wanted.merchant?)
    }

    fn used(&self, merchant: Option<MerchantId>, day: Option<Day>) -> Option<UsedCount>
        ensures { (t : Tables) → Recalls self.now t → IfSome result (λ n.
            n ≡ used_if (used_at t (or_empty merchant)) (option_and_then (λ _. day) merchant)) }
    {
        self.counts.used(merchant?, day?)
    }

    /// Learns what was looked up of what was asked for.
    pub fn learn(&mut self, alloc: Global, asked: &Wanted, looked: &Looked)
        ensures learns { (t : Tables) → IsLooked t asked.now looked.now
            → Recalls self.old t → Recalls self.new t }
        ensures keeps { (t : Tables) → Recalls self.new t → Recalls self.old t }
    {
        self.learn_row(looked);
        self.learn_merchant(asked, looked);
        self.learn_terminal(asked, looked);
        self.learn_range(alloc, asked, looked);
        self.learn_admitted(asked, looked);
        self.learn_used(asked, looked);
    }

    fn learn_row(&mut self, looked: &Looked)
        ensures learns { (t : Tables) → looked.now.limit ≡ t.limit → looked.now.today ≡ t.day
            → Recalls self.old t → Recalls self.new t }
        ensures keeps { (t : Tables) → Recalls self.new t → Recalls self.old t }
    {
        if self.row.is_none() {
            self.row = Some((looked.limit, looked.today));
        }
    }

    fn learn_merchant(&mut self, asked: &Wanted, looked: &Looked)
        ensures learns { (t : Tables) → IsLooked t asked.now looked.now
            → Recalls self.old t → Recalls self.new t }
        ensures keeps { (t : Tables) → Recalls self.new t → Recalls self.old t }
    {
        if let (Some(id), Some(row)) = (asked.merchant, looked.merchant) {
            self.merchants.note(&id, row);
        }
    }

    fn learn_terminal(&mut self, asked: &Wanted, looked: &Looked)
        ensures learns { (t : Tables) → IsLooked t asked.now looked.now
            → Recalls self.old t → Recalls self.new t }
        ensures keeps { (t : Tables) → Recalls self.new t → Recalls self.old t }
    {
        if !looked.has_terminal {
            return;
        }
        if let (Some(merchant), Some(id)) = (asked.merchant, asked.terminal) {
            self.terminals.note(&MerchantTerminal { merchant, id }, ());
        }
    }

    /// Without memory it isn't learned.
    fn learn_range(&mut self, alloc: Global, asked: &Wanted, looked: &Looked)
        ensures learns { (t : Tables) → IsLooked t asked.now looked.now
            → Recalls self.old t → Recalls self.new t }
        ensures keeps { (t : Tables) → Recalls self.new t → Recalls self.old t }
    {
        let (Some(prefix), Some(range)) = (asked.prefix, &looked.range) else {
            return;
        };
        if let Ok(copy) = range.copied(alloc) {
            self.ranges.note(&prefix.number(), copy);
        }
    }

    fn learn_admitted(&mut self, asked: &Wanted, looked: &Looked)
        ensures learns { (t : Tables) → IsLooked t asked.now looked.now
            → Recalls self.old t → Recalls self.new t }
        ensures keeps { (t : Tables) → Recalls self.new t → Recalls self.old t }
    {
        if !asked.admitted {
            return;
        }
        if let Some(merchant) = asked.merchant {
            self.counts.note_admitted(merchant, looked.admitted);
        }
    }

    fn learn_used(&mut self, asked: &Wanted, looked: &Looked)
        ensures learns { (t : Tables) → IsLooked t asked.now looked.now
            → Recalls self.old t → Recalls self.new t }
        ensures keeps { (t : Tables) → Recalls self.new t → Recalls self.old t }
    {
        if let (Some(merchant), Some(day)) = (asked.merchant, asked.used_day) {
            self.counts.note_used(merchant, day, looked.used);
        }
    }
}
