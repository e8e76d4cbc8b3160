//! What is to be done about an event.

use acq_core::{Merchant, Output, Request, Terminal};
use acq_message::{CheckedRequest, Moment, Reference, RequestMessage, ResponseCode, Verdict};
use card_no::Range;
use day_totals::Day;
use iso_codec::Message;

/// What is to be done. It borrows what came and what was looked up.
#[derive(Drop)]
pub(crate) enum Decision<'a> {
    /// Nothing changes, and this is reported.
    Reports(Output),
    /// Nothing changes, and this range is reported as one that is overlapped.
    ReportsOverlap(&'a Range),
    /// Nothing changes, and this code is replied.
    Replies(&'a RequestMessage, ResponseCode),
    /// Nothing changes, and the reply that was kept is given again.
    Repeats(&'a Message),
    /// The request is recorded as refused.
    Refuses(&'a CheckedRequest, ResponseCode),
    /// The request is recorded as pending, under this reference.
    Admits {
        request: &'a CheckedRequest,
        range: &'a Range,
        reference: Reference,
    },
    /// The request is recorded, and completes a hold.
    Completes {
        request: &'a CheckedRequest,
        hold: &'a Request,
    },
    /// The request is recorded, and reverses an original.
    Reverses {
        request: &'a CheckedRequest,
        original: &'a Request,
    },
    /// The request is recorded, and reconciles a day.
    Reconciles {
        request: &'a CheckedRequest,
        day: Day,
    },
    /// A pending request is answered.
    Answers {
        moment: Moment,
        verdict: Verdict,
        request: &'a Request,
    },
    /// The next business day begins.
    CutsOver,
    AddsRange(&'a Range),
    DropsRange {
        low: u32,
        high: u32,
    },
    Enrols(Merchant),
    AddsTerminal(Terminal),
}
