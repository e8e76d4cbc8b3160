//! The rows of a book.

use crate::posted::Posted;
use acq_core::{Limit, Merchant, Request, Terminal};
use card_no::RangeList;
use day_totals::Day;

/// The rows of a book in the order in which they came, each table as far as it can be read.
#[derive(Drop)]
pub struct BookRows {
    pub limit: Limit,
    /// The business day.
    pub day: Day,
    pub merchants: Vec<Merchant>,
    pub terminals: Vec<Terminal>,
    pub ranges: RangeList,
    pub requests: Vec<Request>,
    pub postings: Vec<Posted>,
}
