//! What a line of a control connection asks.

use crate::merchant_statement::MerchantStatement;
use crate::sought::Sought;
use acq_core::{Event, MerchantId, Moment};
use acq_directory::Listing;
use acq_faults::DayReport;
use acq_status::{Serving, StatusForm};
use day_totals::Day;

/// What a line of a control connection asks.
#[derive(Drop)]
pub enum Question {
    /// That this event is taken.
    Event(Event),
    /// The clearing file or the settlement report of a day.
    Report(DayReport),
    /// The settlement report of a day, as CSV.
    ReportCsv(Day),
    /// The sums of a day by currency.
    Sums(Day),
    /// What became of a merchant's requests.
    Find(Sought),
    /// The statement of a merchant's day.
    Statement(MerchantStatement),
    /// The open holds of a merchant at a moment.
    Holds(MerchantId, Moment),
    /// Answers without a verdict to the requests of a day that wait for their issuer, given at a
    /// moment.
    Pending(Day, Moment),
    /// What the host would say to this event, and why.
    Explain(Event),
    /// The merchants, the terminals or the ranges.
    List(Listing),
    /// Figures of the book, and of what is served.
    Status(StatusForm, Serving),
    /// That the business day ends at a moment, if it is this one.
    End(Day, Moment),
    /// That the host opens its log anew.
    Reopen,
    /// That the host ends.
    Stop,
}
