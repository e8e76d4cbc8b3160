//! What an event needs of the database.

ghost use Rattle.std.specs.Prelude.{◌≡◌, option_and_then};
ghost use Rattle.acq_message.specs.Elements.{or_empty};
ghost use Rattle.acq_core.specs.Known.{holds_if, nothing, number_if, totals_if, used_if};
ghost use Rattle.acq_book.specs.Lookups.{admitted_at, has_terminal_at, merchant_at, used_at};
ghost use Rattle.acq_book.specs.Lookups.{overlapping_at, range_at, referred_at, request_at};
ghost use Rattle.acq_book.specs.Lookups.{totals_at};
ghost use Rattle.acq_book.specs.Looked.{IsLooked};
ghost use Rattle.acq_sql.specs.Given.{Gives, rows_of};

use crate::answers::counted;
use crate::sql_book::SqlBook;
use acq_book::BookFault;
use acq_core::{
    AdmittedCount, Limit, Looked, Merchant, MerchantId, Reference, Request, RequestKey, TerminalId,
    UsedCount, Wanted,
};
use card_no::{Prefix, Range};
use day_totals::{Day, Totals};
use sqlite::Alter;

impl<S: Alter> SqlBook<S> {
    /// How many messages of a merchant a day admits, and the business day. They are read once, and
    /// recalled.
    pub(crate) fn limit_and_day(&mut self) -> Result<(Limit, Day), BookFault>
        ensures { Gives S.Store self.old self.new result (λ t row. row ≡ (t.limit, t.day)) }
    {
        if let Some(row) = self.memo.row() {
            return Ok(row);
        }
        self.settled();
        let answer = acq_sql_reads::limit_and_day(&mut self.connection);
        let told = counted(&mut self.failures, answer);
        self.memo.note_row(&told);
        told
    }

    /// Looks up what is wanted, over what is known of the day alone.
    pub(crate) fn look_up_wanted(
        &mut self,
        wanted: &Wanted,
        looked: &mut Looked,
    ) -> Result<(), BookFault>
        ensures { Gives S.Store self.old self.new result (λ t done.
            IsLooked t nothing looked.old → IsLooked t wanted.now looked.new) }
    {
        self.look_up_rows(wanted, looked)?;
        self.look_up_of_merchant(wanted, looked)
    }

    /// Looks up the ranges and the requests under their keys. Each part is put in its place at once,
    /// since what was looked up is large.
    fn look_up_rows(&mut self, wanted: &Wanted, looked: &mut Looked) -> Result<(), BookFault>
        ensures { Gives S.Store self.old self.new result (λ t done.
            IsLooked t nothing looked.old → IsLooked t (rows_of wanted.now) looked.new) }
    {
        let range = self.range_if(wanted.prefix)?;
        put(&mut looked.range, range);
        let overlapped = self.overlapping_if(wanted.bounds)?;
        put(&mut looked.overlapped, overlapped);
        let recorded = self.request_if(wanted.key)?;
        put(&mut looked.recorded, recorded);
        let original = self.request_if(wanted.original)?;
        put(&mut looked.original, original);
        Ok(())
    }

    /// Looks up what is looked up for the merchant that is wanted, where the rest was.
    fn look_up_of_merchant(&mut self, wanted: &Wanted, looked: &mut Looked) -> Result<(), BookFault>
        ensures { Gives S.Store self.old self.new result (λ t done.
            IsLooked t (rows_of wanted.now) looked.old → IsLooked t wanted.now looked.new) }
    {
        let found = self.merchant_if(wanted.merchant, wanted.admitted)?;
        looked.merchant = found.0;
        looked.admitted = found.1;
        let has_terminal = self.has_terminal_if(wanted.merchant, wanted.terminal)?;
        looked.has_terminal = has_terminal;
        let used = self.used_if(wanted.merchant, wanted.used_day)?;
        looked.used = used;
        let totals = self.totals_if(wanted.merchant, wanted.totals_day)?;
        looked.totals = totals;
        let referred = self.by_reference_if(wanted.merchant, wanted.reference)?;
        put(&mut looked.referred, referred);
        Ok(())
    }

    /// The merchant, and how many of its requests were admitted, if they are counted.
    fn merchant_if(
        &mut self,
        id: Option<MerchantId>,
        admitted: bool,
    ) -> Result<(Option<Merchant>, AdmittedCount), BookFault>
        ensures { Gives S.Store self.old self.new result (λ t found. found
            ≡ (
              option_and_then (merchant_at t) id,
              number_if admitted (admitted_at t (or_empty id)) id,
            )) }
    {
        let Some(id) = id else {
            return Ok((None, AdmittedCount::zero()));
        };
        self.settled();
        let answer = acq_sql_reads::merchant_and_admitted(&mut self.connection, id, admitted);
        counted(&mut self.failures, answer)
    }

    /// Whether the merchant has the terminal, where both are wanted.
    fn has_terminal_if(
        &mut self,
        merchant: Option<MerchantId>,
        id: Option<TerminalId>,
    ) -> Result<bool, BookFault>
        ensures { Gives S.Store self.old self.new result (λ t has. has
            ≡ holds_if (has_terminal_at t (or_empty merchant))
            (option_and_then (λ m. id) merchant)) }
    {
        let (Some(merchant), Some(id)) = (merchant, id) else {
            return Ok(false);
        };
        self.settled();
        let answer = acq_sql_reads::has_terminal(&mut self.connection, merchant, id);
        counted(&mut self.failures, answer)
    }

    /// How many of the merchant's messages count against the limit of a day, where both are wanted.
    fn used_if(
        &mut self,
        merchant: Option<MerchantId>,
        day: Option<Day>,
    ) -> Result<UsedCount, BookFault>
        ensures { Gives S.Store self.old self.new result (λ t n. n
            ≡ used_if (used_at t (or_empty merchant)) (option_and_then (λ m. day) merchant)) }
    {
        let (Some(merchant), Some(day)) = (merchant, day) else {
            return Ok(UsedCount::zero());
        };
        self.settled();
        let answer = acq_sql_reads::used(&mut self.connection, merchant, day);
        counted(&mut self.failures, answer)
    }

    /// The merchant's totals of the day, where both are wanted.
    fn totals_if(
        &mut self,
        merchant: Option<MerchantId>,
        day: Option<Day>,
    ) -> Result<Totals, BookFault>
        ensures { Gives S.Store self.old self.new result (λ t totals. totals
            ≡ totals_if (totals_at t (or_empty merchant)) (option_and_then (λ m. day) merchant)) }
    {
        let (Some(merchant), Some(day)) = (merchant, day) else {
            return Ok(Totals::zero());
        };
        self.settled();
        let answer = acq_sql_reads::totals(&mut self.connection, merchant, day);
        counted(&mut self.failures, answer)
    }

    /// The merchant's request with the reference, where both are wanted.
    fn by_reference_if(
        &mut self,
        merchant: Option<MerchantId>,
        reference: Option<Reference>,
    ) -> Result<Option<Request>, BookFault>
        ensures { Gives S.Store self.old self.new result (λ t row. row
            ≡ option_and_then (referred_at t (or_empty merchant))
            (option_and_then (λ m. reference) merchant)) }
    {
        let (Some(merchant), Some(reference)) = (merchant, reference) else {
            return Ok(None);
        };
        self.settled();
        let answer = acq_sql_reads::by_reference(
            &mut self.connection,
            self.alloc,
            merchant,
            reference,
        );
        counted(&mut self.failures, answer)
    }

    /// The range that holds the prefix that is wanted.
    fn range_if(&mut self, prefix: Option<Prefix>) -> Result<Option<Range>, BookFault>
        ensures { Gives S.Store self.old self.new result
            (λ t range. range ≡ option_and_then (range_at t) prefix) }
    {
        let Some(prefix) = prefix else {
            return Ok(None);
        };
        self.settled();
        let answer = acq_sql_reads::range(&mut self.connection, self.alloc, prefix);
        counted(&mut self.failures, answer)
    }

    /// Of the ranges that overlap the ends that are wanted, the one of least low.
    fn overlapping_if(&mut self, bounds: Option<(u32, u32)>) -> Result<Option<Range>, BookFault>
        ensures { Gives S.Store self.old self.new result (λ t range. range
            ≡ option_and_then (λ ends. overlapping_at t ends.0 ends.1) bounds) }
    {
        let Some((low, high)) = bounds else {
            return Ok(None);
        };
        self.settled();
        let answer = acq_sql_reads::overlapping(&mut self.connection, self.alloc, low, high);
        counted(&mut self.failures, answer)
    }

    /// The request with the key that is wanted.
    fn request_if(&mut self, key: Option<RequestKey>) -> Result<Option<Request>, BookFault>
        ensures { Gives S.Store self.old self.new result
            (λ t row. row ≡ option_and_then (request_at t) key) }
    {
        let Some(key) = key else {
            return Ok(None);
        };
        self.settled();
        let answer = acq_sql_reads::request(&mut self.connection, self.alloc, key);
        counted(&mut self.failures, answer)
    }
}

/// Puts what was found in its place. What stood there is let go in this one function.
fn put<T: Drop>(place: &mut Option<T>, found: Option<T>)
    ensures { place.new ≡ found }
{
    *place = found;
}
