//! A search that takes slice after slice of the requests.

ghost use Rattle.std.specs.Prelude.{◌≡◌, ◌↔◌, ◌&&◌, ◌*◌, ◌<◌, nat_lt, flat_map, length, false};
ghost use Rattle.std.specs.Prelude.{true, None, Some, is_ok, IfOk};
ghost use Rattle.std.specs.Str.{bytes_eq};
ghost use Rattle.acq_book.specs.Calls.{Looks};
ghost use Rattle.acq_book.specs.Promise.{CountsFault};
ghost use Rattle.acq_core.specs.Tables.{Tables};
ghost use Rattle.acq_inquiry.specs.Inquiries.{found_at, is_asked, is_found, is_one_of};
ghost use Rattle.acq_inquiry.specs.InquiryTexts.{inquiry_text, text_of_told};
ghost use Rattle.acq_inquiry.specs.KeptPostings.{told_with};
ghost use Rattle.acq_inquiry.specs.Searching.{Asks, IsCopied, IsSearched, IsWhole, SeesMore};
ghost use Rattle.acq_inquiry.specs.Searching.{row_at};

use crate::inquiry::Inquiry;
use crate::inquiry_text::{many_text, text_of_told};
use crate::kept_postings::KeptPostings;
use crate::looking::Looking;
use crate::posted_day::{PostedDay, days_copied};
use crate::rows_at::rows_at;
use crate::seeing::Seeing;
use acq_book::{Book, BookFault};
use acq_core::{MerchantId, Reference, Request};
use acq_reports::SLICE;
use day_totals::Day;
use std::alloc::{AllocError, Global};

/// While events are taken between slices, a text tells of so many requests at most, since it is
/// made at one moment; and a search for it ends once it is known to find more.
pub const MOST_TOLD: u64 = 100;

/// So many references a request has at most: its own, and that of the one which it follows.
const REFERENCES: u64 = 2;

/// A search for the requests that an inquiry finds among a merchant's, which goes over a book's
/// requests, and over the postings of their days, slice by slice, while events are taken between
/// the slices.
///
/// What it has found stays found, whatever events are taken, since it keeps the places of the
/// requests, and what decides whether one is found never changes; and postings that come later have
/// greater numbers. So its text is that of the tables at which it is written.
#[derive(Drop)]
pub struct Search {
    merchant: MerchantId,
    inquiry: Inquiry,
    /// Those of the requests that are asked for, and of those that they follow.
    references: Vec<Reference>,
    /// So many of the first rows were gone over for the references.
    seen: u64,
    /// Where the requests stand that are found by the references.
    places: Vec<u64>,
    /// So many of the first rows were gone over for the places.
    looked: u64,
    /// The days of the requests that are found.
    on: Vec<Day>,
    /// What was kept of the postings of these days.
    days: Vec<PostedDay>,
    /// The last walk came to the end of the rows.
    is_at_end: bool,
}

impl Search {
    /// One that went over nothing yet.
    pub fn of(alloc: Global, merchant: MerchantId, inquiry: Inquiry) -> Search
        ensures asks { Asks merchant inquiry result }
        ensures fresh { (t : Tables) → IsSearched t result }
    {
        Search {
            merchant,
            inquiry,
            references: Vec::new(alloc),
            seen: 0,
            places: Vec::new(alloc),
            looked: 0,
            on: Vec::new(alloc),
            days: Vec::new(alloc),
            is_at_end: false,
        }
    }

    /// Whether it asks for this, of this merchant's requests.
    pub fn is_for(&self, merchant: MerchantId, inquiry: &Inquiry) -> bool
        ensures { result ≡ true ↔ Asks merchant inquiry.now self.now }
    {
        self.merchant == merchant && self.inquiry == *inquiry
    }

    /// Whether it has gone over all the rows that there were in its last slice, or finds more
    /// requests than [`MOST_TOLD`].
    pub fn is_done(&self) -> bool {
        self.is_at_end || self.finds_more_than(MOST_TOLD)
    }

    /// Goes on by a slice, of some seventy rows; where it is done, over the rows that came since.
    #[tactic(auto, using(acq_book::proofs::Chains::looks_more))]
    pub fn go_on<B: Book>(&self, alloc: Global, book: &mut B) -> Result<Search, BookFault>
        ensures goes { B.is_honest book.new → B.is_open book.old
            → IsSearched (B.tables book.old) self.now
            → IfOk result (λ search. IsSearched (B.tables book.old) search) }
        ensures asks { IfOk result (Asks self.now.merchant self.now.inquiry) }
        ensures looks { Looks B.Book book.old book.new (is_ok result) }
        ensures store { CountsFault result (B.failures book.old) (B.failures book.new) }
    {
        let seen = self.see(alloc, book, Some(self.seen.saturating_add(SLICE)))?;
        if !seen.is_at_end {
            return Ok(seen);
        }
        let looked = seen.look(alloc, book, Some(seen.looked.saturating_add(SLICE)))?;
        if !looked.is_at_end || looked.finds_more_than(MOST_TOLD) {
            return Ok(looked);
        }
        looked.post(alloc, book, Some(SLICE))
    }

    /// Whether it is known by now that it finds more requests than so many.
    fn finds_more_than(&self, most: u64) -> bool
        ensures more { result ≡ true → (t : Tables) → IsSearched t self.now
            → nat_lt most (length (found_at t self.now.merchant self.now.inquiry)) ≡ true }
        ensures whole { result ≡ false → (t : Tables) → IsWhole t self.now
            → nat_lt most (length (found_at t self.now.merchant self.now.inquiry)) ≡ false }
    {
        most < self.places.len() as u64 || self.refers_to_more_than(most)
    }

    /// Whether it has references of more requests than so many.
    fn refers_to_more_than(&self, most: u64) -> bool
        ensures { result ≡ true → 2 * most < length self.now.references.items }
    {
        match most.checked_mul(REFERENCES) {
            Some(references) => references < self.references.len() as u64,
            None => false,
        }
    }

    /// What became of the requests that are found at this moment: the text of [`write_inquiry`], or
    /// that they are more than so many. Rows that it has not gone over are gone over first, which
    /// are few where it is done.
    ///
    /// [`write_inquiry`]: crate::write_inquiry
    #[tactic(auto, using(acq_book::proofs::Chains::looks_more))]
    pub fn text<B: Book>(
        &self,
        alloc: Global,
        book: &mut B,
        most: Option<u64>,
    ) -> Result<Vec<u8>, BookFault>
        ensures text { B.is_honest book.new → B.is_open book.old
            → IsSearched (B.tables book.old) self.now → IfOk result (λ text. text.items
            ≡ inquiry_text (B.tables book.old) self.now.merchant self.now.inquiry most) }
        ensures looks { Looks B.Book book.old book.new (is_ok result) }
        ensures store { CountsFault result (B.failures book.old) (B.failures book.new) }
    {
        match most {
            Some(most) => self.text_up_to(alloc, book, most),
            None => self.whole_text(alloc, book),
        }
    }

    /// The text of no more requests than so many.
    #[tactic(auto, using(acq_book::proofs::Chains::looks_more))]
    fn text_up_to<B: Book>(
        &self,
        alloc: Global,
        book: &mut B,
        most: u64,
    ) -> Result<Vec<u8>, BookFault>
        ensures text { B.is_honest book.new → B.is_open book.old
            → IsSearched (B.tables book.old) self.now → IfOk result (λ text. text.items
            ≡ inquiry_text (B.tables book.old) self.now.merchant self.now.inquiry (Some most)) }
        ensures looks { Looks B.Book book.old book.new (is_ok result) }
        ensures store { CountsFault result (B.failures book.old) (B.failures book.new) }
    {
        if self.finds_more_than(most) {
            return Ok(many_text(alloc, most)?);
        }
        let whole = self.whole(alloc, book)?;
        if whole.finds_more_than(most) {
            return Ok(many_text(alloc, most)?);
        }
        whole.told(alloc, book)
    }

    /// The text of all requests.
    #[tactic(auto, using(acq_book::proofs::Chains::looks_more))]
    fn whole_text<B: Book>(&self, alloc: Global, book: &mut B) -> Result<Vec<u8>, BookFault>
        ensures text { B.is_honest book.new → B.is_open book.old
            → IsSearched (B.tables book.old) self.now → IfOk result (λ text. text.items
            ≡ inquiry_text (B.tables book.old) self.now.merchant self.now.inquiry None) }
        ensures looks { Looks B.Book book.old book.new (is_ok result) }
        ensures store { CountsFault result (B.failures book.old) (B.failures book.new) }
    {
        let whole = self.whole(alloc, book)?;
        whole.told(alloc, book)
    }

    /// Goes over all requests that it has not gone over.
    #[tactic(auto, using(acq_book::proofs::Chains::looks_more))]
    fn whole<B: Book>(&self, alloc: Global, book: &mut B) -> Result<Search, BookFault>
        ensures whole { B.is_honest book.new → B.is_open book.old
            → IsSearched (B.tables book.old) self.now
            → IfOk result (IsWhole (B.tables book.old)) }
        ensures asks { IfOk result (Asks self.now.merchant self.now.inquiry) }
        ensures looks { Looks B.Book book.old book.new (is_ok result) }
        ensures store { CountsFault result (B.failures book.old) (B.failures book.new) }
    {
        let seen = self.see(alloc, book, None)?;
        seen.look(alloc, book, None)
    }

    /// What became of the requests that are found, where all requests were gone over.
    #[tactic(auto, using(acq_book::proofs::Chains::looks_more))]
    fn told<B: Book>(&self, alloc: Global, book: &mut B) -> Result<Vec<u8>, BookFault>
        ensures text { B.is_honest book.new → B.is_open book.old
            → IsWhole (B.tables book.old) self.now → IfOk result (λ text. text.items
            ≡ text_of_told (B.tables book.old)
            (found_at (B.tables book.old) self.now.merchant self.now.inquiry)) }
        ensures looks { Looks B.Book book.old book.new (is_ok result) }
        ensures store { CountsFault result (B.failures book.old) (B.failures book.new) }
    {
        let posted = self.post(alloc, book, None)?;
        posted.written(alloc, book)
    }

    /// What became of the requests at the places, with the postings that are kept.
    #[tactic(auto, using(acq_book::proofs::Chains::looks_more))]
    fn written<B: Book>(&self, alloc: Global, book: &mut B) -> Result<Vec<u8>, BookFault>
        ensures text { B.is_honest book.new → B.is_open book.old → IfOk result (λ text. text.items
            ≡ told_with self.now.days.items (B.tables book.old)
            (flat_map (row_at (B.tables book.old)) self.now.places.items)) }
        ensures looks { Looks B.Book book.old book.new (is_ok result) }
        ensures store { CountsFault result (B.failures book.old) (B.failures book.new) }
    {
        let rows = rows_at(alloc, book, self.places.as_slice())?;
        text_of_told(alloc, book, &self.kept(), rows.as_slice())
    }

    /// What it keeps of postings.
    fn kept(&self) -> KeptPostings<'_>
        ensures merchant { result.merchant ≡ self.now.merchant }
        ensures references { result.references.now ≡ self.now.references.items }
        ensures days { result.days.now ≡ self.now.days.items }
    {
        KeptPostings {
            merchant: self.merchant,
            references: self.references.as_slice(),
            days: self.days.as_slice(),
        }
    }

    /// Goes over the rows behind those that were seen, for references; to the end of the rows, or
    /// up to one.
    fn see<B: Book>(
        &self,
        alloc: Global,
        book: &mut B,
        end: Option<u64>,
    ) -> Result<Search, BookFault>
        ensures goes { B.is_honest book.new → B.is_open book.old
            → IsSearched (B.tables book.old) self.now
            → IfOk result (λ search. IsSearched (B.tables book.old) search) }
        ensures whole { B.is_honest book.new → B.is_open book.old
            → IsSearched (B.tables book.old) self.now → end ≡ None
            → IfOk result (λ search. search.seen ≡ length (B.tables book.old).requests) }
        ensures asks { IfOk result (Asks self.now.merchant self.now.inquiry) }
        ensures looks { Looks B.Book book.old book.new (is_ok result) }
        ensures store { CountsFault result (B.failures book.old) (B.failures book.new) }
    {
        let mut seeing = Seeing {
            search: self,
            references: Vec::new(alloc),
            seen: self.seen,
            end,
            is_short: false,
        };
        book.walk_requests_behind(self.seen, &mut seeing)?;
        if seeing.is_short {
            return Err(BookFault::Memory);
        }
        let is_at_end = seeing.goes_on();
        let references = seeing.references.as_slice();
        Ok(self.with_references(alloc, references, seeing.seen, is_at_end)?)
    }

    /// With more references, of rows up to so many. If there are any, the rows are to be gone over
    /// for places from the first on, and then the postings.
    fn with_references(
        &self,
        alloc: Global,
        more: &[Reference],
        seen: u64,
        is_at_end: bool,
    ) -> Result<Search, AllocError>
        ensures { IfOk result (SeesMore self.now more.now seen) }
    {
        if more.is_empty() {
            let mut next = self.copied(alloc)?;
            next.seen = seen;
            next.is_at_end = is_at_end;
            return Ok(next);
        }
        let mut references = Vec::from_slice(alloc, self.references.as_slice())?;
        references.extend_from_slice(more)?;
        Ok(Search {
            merchant: self.merchant,
            inquiry: self.inquiry,
            references,
            seen,
            places: Vec::new(alloc),
            looked: 0,
            on: Vec::new(alloc),
            days: Vec::new(alloc),
            is_at_end,
        })
    }

    /// A copy.
    fn copied(&self, alloc: Global) -> Result<Search, AllocError>
        ensures { IfOk result (IsCopied self.now) }
    {
        let references = Vec::from_slice(alloc, self.references.as_slice())?;
        let places = Vec::from_slice(alloc, self.places.as_slice())?;
        let on = Vec::from_slice(alloc, self.on.as_slice())?;
        let days = days_copied(alloc, self.days.as_slice())?;
        Ok(Search {
            merchant: self.merchant,
            inquiry: self.inquiry,
            references,
            seen: self.seen,
            places,
            looked: self.looked,
            on,
            days,
            is_at_end: self.is_at_end,
        })
    }

    /// Goes over the rows behind those that were looked at, for places; to the end of the rows, or
    /// up to one.
    fn look<B: Book>(
        &self,
        alloc: Global,
        book: &mut B,
        end: Option<u64>,
    ) -> Result<Search, BookFault>
        ensures goes { B.is_honest book.new → B.is_open book.old
            → IsSearched (B.tables book.old) self.now
            → IfOk result (λ search. IsSearched (B.tables book.old) search) }
        ensures seen { IfOk result (λ search. search.seen ≡ self.now.seen) }
        ensures whole { B.is_honest book.new → B.is_open book.old
            → IsSearched (B.tables book.old) self.now → end ≡ None
            → IfOk result (λ search. search.looked ≡ length (B.tables book.old).requests) }
        ensures asks { IfOk result (Asks self.now.merchant self.now.inquiry) }
        ensures looks { Looks B.Book book.old book.new (is_ok result) }
        ensures store { CountsFault result (B.failures book.old) (B.failures book.new) }
    {
        let mut next = self.copied(alloc)?;
        let places = Vec::from_slice(alloc, self.places.as_slice())?;
        let on = Vec::from_slice(alloc, self.on.as_slice())?;
        let mut looking = Looking {
            search: self,
            places,
            looked: self.looked,
            on,
            end,
            is_short: false,
        };
        book.walk_requests_behind(self.looked, &mut looking)?;
        if looking.is_short {
            return Err(BookFault::Memory);
        }
        next.is_at_end = looking.goes_on();
        next.places = looking.places;
        next.looked = looking.looked;
        next.on = looking.on;
        Ok(next)
    }

    /// Goes over the postings of the requests' days behind those that were gone over; of each day
    /// to the last, or so many.
    fn post<B: Book>(
        &self,
        alloc: Global,
        book: &mut B,
        end: Option<u64>,
    ) -> Result<Search, BookFault>
        ensures goes { B.is_honest book.new → B.is_open book.old
            → IsSearched (B.tables book.old) self.now
            → IfOk result (λ search. IsSearched (B.tables book.old) search) }
        ensures seen { IfOk result (λ search. search.seen ≡ self.now.seen) }
        ensures looked { IfOk result (λ search. search.looked ≡ self.now.looked) }
        ensures asks { IfOk result (Asks self.now.merchant self.now.inquiry) }
        ensures looks { Looks B.Book book.old book.new (is_ok result) }
        ensures store { CountsFault result (B.failures book.old) (B.failures book.new) }
    {
        let mut next = self.copied(alloc)?;
        let days = self.kept().go_on(alloc, book, self.on.as_slice(), end)?;
        next.is_at_end = days.as_slice().iter().all(|day| day.is_at_end);
        next.days = days;
        Ok(next)
    }

    /// Whether a request is the merchant's and asked for.
    pub(crate) fn asks_for(&self, row: &Request) -> bool
        ensures { result ≡ (bytes_eq row.now.key.merchant self.now.merchant
            && is_asked self.now.inquiry row.now) }
    {
        row.key.merchant == self.merchant && self.inquiry.asks_for(row)
    }

    /// Whether a request is the merchant's, and is asked for or related to one that is.
    pub(crate) fn finds(&self, row: &Request) -> bool
        ensures { result ≡ (bytes_eq row.now.key.merchant self.now.merchant
            && is_found self.now.inquiry self.now.references.items row.now) }
    {
        let references = self.references.as_slice();
        row.key.merchant == self.merchant
            && (self.inquiry.asks_for(row)
                || is_one_of(references, row.reference)
                || is_one_of(references, row.follows))
    }
}

/// Whether a reference is there, and is one of these.
fn is_one_of(references: &[Reference], reference: Option<Reference>) -> bool
    ensures { result ≡ is_one_of references.now reference }
{
    match reference {
        Some(reference) => references.contains(&reference),
        None => false,
    }
}
