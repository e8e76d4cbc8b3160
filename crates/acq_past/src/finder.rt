//! What seeks the past of a book.

use crate::book_rows::BookRows;
use crate::finder_ranges::unless_short;
use crate::frames::{is_refused_with, moment, request_of};
use crate::places::Places;
use acq_core::{Event, MessageText, Moment, Request, RequestKey, Service, Status, Verdict};
use acq_message::{CheckedRequest, claimed_in, original_key, reference_in, remaining_in, text_at};
use acq_range_changes::list_changes;
use card_no::RangeList;
use day_totals::{Day, Leg};
use iso_codec::encode;
use std::alloc::{AllocError, Global};
use std::hash::RandomState;

/// Goes over the requests of a book, and makes the events that lead to their rows: for each its
/// frame, behind the answers that came before it.
///
/// An answer is made as late as it can be. An approved sale is answered before the posting behind
/// its own is made; a hold and what was declined before what shows that they were answered.
#[derive(Drop)]
pub(crate) struct Finder<'a> {
    pub(crate) alloc: Global,
    rows: &'a BookRows,
    places: Places,
    /// Whether each request was answered so far.
    answered: Vec<bool>,
    /// So many of the postings were made.
    posted: usize,
    day: Day,
    /// The ranges as they stand.
    pub(crate) ranges: RangeList,
    pub(crate) events: Vec<Event>,
}

impl<'a> Finder<'a> {
    /// One that has made no event.
    pub fn new(
        alloc: Global,
        keys: RandomState,
        rows: &'a BookRows,
        first_day: Day,
    ) -> Result<Finder<'a>, AllocError> {
        let places = Places::of(alloc, keys, rows)?;
        let mut answered = Vec::new(alloc);
        for _ in rows.requests.iter() {
            answered.push(false)?;
        }
        Ok(Finder {
            alloc,
            rows,
            places,
            answered,
            posted: 0,
            day: first_day,
            ranges: RangeList::new(alloc),
            events: Vec::new(alloc),
        })
    }

    /// The events.
    pub fn into_events(self) -> Vec<Event> {
        self.events
    }

    /// Enrols the merchants and their terminals, and adds the ranges.
    pub fn enrol(&mut self) -> Result<(), AllocError> {
        let rows = self.rows;
        for row in rows.merchants.iter() {
            let enrolment = Event::Enrol(row.id, row.currency, row.first_reference);
            self.events.push(enrolment)?;
        }
        for row in rows.terminals.iter() {
            self.events.push(Event::AddTerminal(row.merchant, row.id))?;
        }
        self.set_ranges(&rows.ranges)
    }

    /// Takes the requests, up to one that no host recorded.
    pub fn take_requests(&mut self) -> Result<(), AllocError> {
        let rows = self.rows;
        for row in rows.requests.iter() {
            let Some(request) = request_of(self.alloc, row)? else {
                return Ok(());
            };
            self.take(row, &request)?;
        }
        Ok(())
    }

    /// Makes the answers that are left, the cutovers up to the business day, and its ranges.
    pub fn finish(&mut self) -> Result<(), AllocError> {
        let rows = self.rows;
        self.post_up_to(rows.postings.len())?;
        for place in 0..rows.requests.len() {
            self.put_answer(place)?;
        }
        self.cut_over(rows.day)?;
        self.set_ranges(&rows.ranges)
    }

    fn take(&mut self, row: &Request, request: &CheckedRequest) -> Result<(), AllocError> {
        self.cut_over(row.day)?;
        self.set_range_of(row)?;
        self.answer_before(row, request)?;
        let request = request.as_request();
        let mut text = Vec::new(self.alloc);
        encode(self.alloc, &request.message, &mut text)?;
        let frame = Event::Frame(request.moment, MessageText::from_vec(text));
        self.events.push(frame)?;
        Ok(())
    }

    fn cut_over(&mut self, day: Day) -> Result<(), AllocError> {
        for _ in self.day.number()..day.number() {
            self.events.push(Event::Cutover(moment(0)))?;
        }
        self.day = self.day.max(day);
        Ok(())
    }

    /// Makes these ranges of those that stand.
    fn set_ranges(&mut self, ranges: &RangeList) -> Result<(), AllocError> {
        let changes = list_changes(self.alloc, &self.ranges, ranges)?;
        for change in changes.into_iter() {
            self.events.push(change)?;
        }
        let mut copies = RangeList::new(self.alloc);
        for range in ranges.as_slice().iter() {
            unless_short(copies.add(range.copied(self.alloc)?))?;
        }
        self.ranges = copies;
        Ok(())
    }

    // ---- answers that came before a request

    fn answer_before(&mut self, row: &Request, request: &CheckedRequest) -> Result<(), AllocError> {
        match row.key.service {
            Service::Completion => self.answer_hold(row, request),
            Service::Reversal | Service::ReversalAdvice => self.answer_original(row, request),
            Service::Reconciliation => self.post_before_reconciliation(row),
            _ => Ok(()),
        }
    }

    /// A completion that was accepted found an open hold, and so did one whose amount was above what
    /// the hold has, or whose day was full.
    fn answer_hold(&mut self, row: &Request, request: &CheckedRequest) -> Result<(), AllocError> {
        let above_hold = row.amount.is_accepted() && is_refused_with(row, &[*b"13"]);
        if !is_refused(row) || above_hold || is_refused_with(row, &[*b"65"]) {
            if let Some(reference) = reference_in(&request.as_request().message) {
                if let Some(hold) = self.places.admitted(row.key.merchant, reference) {
                    self.answer(hold)?;
                }
            }
        }
        self.post_before(row, false)
    }

    /// A reversal that was accepted found its original answered, unless it overtook the answer;
    /// what one that was refused found, its code says.
    fn answer_original(
        &mut self,
        row: &Request,
        request: &CheckedRequest,
    ) -> Result<(), AllocError> {
        let place = match original_of(request) {
            Some(key) => self.places.request(&key),
            None => None,
        };
        if let Some(place) = place {
            let rows = self.rows;
            if let Some(original) = rows.requests.get(place) {
                let remaining = remaining_in(&request.as_request().message).number();
                if was_answered(row, original, remaining) {
                    self.answer(place)?;
                }
            }
        }
        self.post_before(row, true)
    }

    /// What a reconciliation found were the postings of its day up to a number.
    fn post_before_reconciliation(&mut self, row: &Request) -> Result<(), AllocError> {
        if is_refused(row) {
            return Ok(());
        }
        let Ok(date) = <[u8; 4]>::try_from(text_at(&row.reply, 15)) else {
            return Ok(());
        };
        let Some(day) = Day::resolve(date, row.day) else {
            return Ok(());
        };
        let mut number: u64 = 0;
        for count in claimed_in(&row.reply).counts.iter() {
            number = number.saturating_add(*count);
        }
        match self.places.numbered(row.key.merchant, day, number) {
            Some(place) => self.post_up_to(place.saturating_add(1)),
            None => Ok(()),
        }
    }

    /// Makes the postings before that of a completion or a reversal, if it was accepted.
    fn post_before(&mut self, row: &Request, reverses: bool) -> Result<(), AllocError> {
        let posts = !is_refused(row) && (!reverses || row.leg != Leg::Credit);
        match row.follows {
            Some(reference) if posts => {
                match self.places.posting(row.key.merchant, reference, reverses) {
                    Some(place) => self.post_up_to(place),
                    None => Ok(()),
                }
            }
            _ => Ok(()),
        }
    }

    /// Answers a request; a sale that posts, behind the postings before its own.
    fn answer(&mut self, place: usize) -> Result<(), AllocError> {
        let rows = self.rows;
        let Some(row) = rows.requests.get(place) else {
            return Ok(());
        };
        if let (Service::Financial, Some(reference)) = (row.key.service, row.reference) {
            if let Some(posting) = self.places.posting(row.key.merchant, reference, false) {
                self.post_up_to(posting.saturating_add(1))?;
            }
        }
        self.put_answer(place)
    }

    /// Makes the first so many postings: the approvals of sales among them.
    fn post_up_to(&mut self, end: usize) -> Result<(), AllocError> {
        let rows = self.rows;
        let end = end.min(rows.postings.len());
        for place in self.posted..end {
            let posted = &rows.postings[place];
            if !posted.reverses {
                if let Some(sale) = self.places.admitted(posted.merchant, posted.reference) {
                    self.put_approval(sale)?;
                }
            }
        }
        self.posted = self.posted.max(end);
        Ok(())
    }

    /// The answer to a sale; that to a hold isn't posted.
    fn put_approval(&mut self, place: usize) -> Result<(), AllocError> {
        match self.rows.requests.get(place) {
            Some(row) if matches!(row.key.service, Service::Financial) => self.put_answer(place),
            _ => Ok(()),
        }
    }

    /// The answer to a request that got one, unless it is made already.
    fn put_answer(&mut self, place: usize) -> Result<(), AllocError> {
        let rows = self.rows;
        let (Some(row), Some(is_answered)) = (
            rows.requests.get(place),
            self.answered.get_mut(place),
        ) else {
            return Ok(());
        };
        if let (false, Some(reference), Some(verdict)) = (
            *is_answered,
            row.reference,
            verdict_of(row),
        ) {
            *is_answered = true;
            let answer = Event::Answer(moment_of_answer(row), row.key.merchant, reference, verdict);
            self.events.push(answer)?;
        }
        Ok(())
    }
}

/// The key of the original that a reversal names.
fn original_of(request: &CheckedRequest) -> Option<RequestKey> {
    match request.as_request().service {
        Service::Reversal | Service::ReversalAdvice => original_key(request),
        _ => None,
    }
}

fn is_refused(row: &Request) -> bool {
    matches!(row.status, Status::Refused)
}

/// Whether an original was answered before a reversal that lets so much of it remain.
fn was_answered(row: &Request, original: &Request, remaining: u64) -> bool {
    match original.status {
        Status::Pending | Status::ReversedPending => false,
        // Of one that waits nothing can remain, so it was refused with 21; that, or accepted.
        Status::Declined => is_refused_with(row, &[*b"21"]),
        _ => { !is_refused(row) || (remaining > 0 && is_refused_with(row, &[*b"13", *b"65"])) }
    }
}

/// What an issuer said, if it said something that counted.
fn verdict_of(row: &Request) -> Option<Verdict> {
    match row.status {
        Status::Approved | Status::Completed | Status::Reversed | Status::Lowered => {
            Verdict::approved(text_at(&row.reply, 38))
        }
        Status::Declined => Verdict::declined(text_at(&row.reply, 39)),
        _ => None,
    }
}

/// When a request was answered: a hold so long before its end, anything else at the first moment.
fn moment_of_answer(row: &Request) -> Moment {
    match (row.hold_end, row.hold_days) {
        (Some(end), Some(days)) => moment(end.saturating_sub(u64::from(days) * 86_400)),
        _ => moment(0),
    }
}
