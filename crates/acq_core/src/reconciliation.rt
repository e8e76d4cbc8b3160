//! Reconciliations.

use acq_message::MerchantId;
use day_totals::Day;

/// A row of the reconciliations, but for its number, which the book gives it: 1 plus the number of
/// that merchant's reconciliations of that day before it.
#[derive(Clone, Copy)]
pub struct Reconciliation {
    pub merchant: MerchantId,
    /// The day that was reconciled.
    pub day: Day,
    pub in_balance: bool,
}
