//! Which request a posting is of.

use acq_core::{MerchantId, Reference};
use day_totals::Day;

/// A row of the postings, without what its request says as well.
#[derive(Clone, Copy)]
pub struct Posted {
    pub merchant: MerchantId,
    pub day: Day,
    /// Its number of that merchant and day.
    pub number: u64,
    /// The reference of its request, or of the one that this follows.
    pub reference: Reference,
    /// It is of a reversal.
    pub reverses: bool,
}
