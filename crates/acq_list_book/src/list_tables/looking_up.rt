//! What an event needs of the lists.

ghost use Rattle.std.specs.Prelude.{◌≡◌, OnOk, option_and_then};
ghost use Rattle.std.specs.Option.{option_copied};
ghost use Rattle.acq_message.specs.Elements.{or_empty};
ghost use Rattle.acq_core.specs.Known.{holds_if, number_if, totals_if, used_if};
ghost use Rattle.acq_book.specs.Lookups.{admitted_at, has_terminal_at, merchant_at, used_at};
ghost use Rattle.acq_book.specs.Lookups.{overlapping_at, range_at, referred_at, request_at};
ghost use Rattle.acq_book.specs.Lookups.{totals_at};
ghost use Rattle.acq_book.specs.Looked.{IsLooked};
ghost use Rattle.acq_book.specs.Promise.{CountsFault};
ghost use Rattle.acq_list_book.specs.Looking.{values_of};

use crate::copies::{found_copied, range_copied};
use crate::list_tables::ListTables;
use acq_book::BookFault;
use acq_core::{
    AdmittedCount, Looked, Merchant, MerchantId, Reference, Request, RequestKey, TerminalId,
    UsedCount, Wanted,
};
use card_no::{Prefix, Range};
use day_totals::{Day, Totals};

impl ListTables {
    /// Looks up what takes no memory.
    pub(crate) fn look_up_values(&self, wanted: &Wanted) -> Looked
        ensures { IsLooked self.now (values_of wanted.now) result }
    {
        Looked {
            today: self.day,
            limit: self.limit,
            merchant: self.merchant_if(wanted.merchant),
            has_terminal: self.has_terminal_if(wanted.merchant, wanted.terminal),
            recorded: None,
            original: None,
            referred: None,
            range: None,
            overlapped: None,
            admitted: self.admitted_if(wanted.admitted, wanted.merchant),
            used: self.used_if(wanted.merchant, wanted.used_day),
            totals: self.totals_if(wanted.merchant, wanted.totals_day),
        }
    }

    /// Looks up the rest, of which it makes copies. Each is put in its place at once, since a row
    /// is large.
    pub(crate) fn look_up_rows(&self, wanted: &Wanted, looked: &mut Looked) -> Result<(), BookFault>
        ensures looked { IsLooked self.now (values_of wanted.now) looked.old
            → OnOk result (IsLooked self.now wanted.now looked.new) }
        ensures store { CountsFault result 0 0 }
    {
        let range = range_copied(self.alloc, self.range_if(wanted.prefix))?;
        put(&mut looked.range, range);
        let overlapped = range_copied(self.alloc, self.overlapping_if(wanted.bounds))?;
        put(&mut looked.overlapped, overlapped);
        let recorded = found_copied(self.alloc, self.request_if(&wanted.key))?;
        put(&mut looked.recorded, recorded);
        let original = found_copied(self.alloc, self.request_if(&wanted.original))?;
        put(&mut looked.original, original);
        let referred = self.by_reference_if(wanted.merchant, wanted.reference);
        let referred = found_copied(self.alloc, referred)?;
        put(&mut looked.referred, referred);
        Ok(())
    }

    fn merchant_if(&self, id: Option<MerchantId>) -> Option<Merchant>
        ensures { result ≡ option_and_then (merchant_at self.now) id }
    {
        self.merchants.get(id?).copied()
    }

    fn has_terminal_if(&self, merchant: Option<MerchantId>, id: Option<TerminalId>) -> bool
        ensures { result ≡ holds_if (has_terminal_at self.now (or_empty merchant))
            (option_and_then (λ m. id) merchant) }
    {
        match (merchant, id) {
            (Some(merchant), Some(id)) => self.terminals.has(merchant, id),
            (Some(_), None) | (None, _) => false,
        }
    }

    fn admitted_if(&self, wanted: bool, merchant: Option<MerchantId>) -> AdmittedCount
        ensures { result
            ≡ number_if wanted (admitted_at self.now (or_empty merchant)) merchant }
    {
        match merchant {
            Some(merchant) if wanted => self.requests.admitted(merchant),
            _ => AdmittedCount::zero(),
        }
    }

    fn used_if(&self, merchant: Option<MerchantId>, day: Option<Day>) -> UsedCount
        ensures { result ≡ used_if (used_at self.now (or_empty merchant))
            (option_and_then (λ m. day) merchant) }
    {
        match (merchant, day) {
            (Some(merchant), Some(day)) => self.requests.used(merchant, day),
            (Some(_), None) | (None, _) => UsedCount::zero(),
        }
    }

    fn totals_if(&self, merchant: Option<MerchantId>, day: Option<Day>) -> Totals
        ensures { result ≡ totals_if (totals_at self.now (or_empty merchant))
            (option_and_then (λ m. day) merchant) }
    {
        match (merchant, day) {
            (Some(merchant), Some(day)) => self.postings.totals(merchant, day),
            (Some(_), None) | (None, _) => Totals::zero(),
        }
    }

    fn range_if(&self, prefix: Option<Prefix>) -> Option<&Range>
        ensures { option_copied result ≡ option_and_then (range_at self.now) prefix }
    {
        self.ranges.find(prefix?)
    }

    fn overlapping_if(&self, bounds: Option<(u32, u32)>) -> Option<&Range>
        ensures { option_copied result
            ≡ option_and_then (λ ends. overlapping_at self.now ends.0 ends.1) bounds }
    {
        let (low, high) = bounds?;
        self.ranges.overlapping(low, high)
    }

    fn request_if(&self, key: &Option<RequestKey>) -> Option<&Request>
        ensures { option_copied result ≡ option_and_then (request_at self.now) key.now }
    {
        match key {
            Some(key) => self.requests.get(key),
            None => None,
        }
    }

    fn by_reference_if(
        &self,
        merchant: Option<MerchantId>,
        reference: Option<Reference>,
    ) -> Option<&Request>
        ensures { option_copied result ≡ option_and_then (referred_at self.now (or_empty merchant))
            (option_and_then (λ m. reference) merchant) }
    {
        self.requests.by_reference(merchant?, reference?)
    }
}

/// Puts what was found in its place. What stood there is let go in this one function.
fn put<T: Drop>(place: &mut Option<T>, found: Option<T>)
    ensures { place.new ≡ found }
{
    *place = found;
}
