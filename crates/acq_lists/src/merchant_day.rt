//! Days of merchants.

use acq_core::MerchantId;
use day_totals::Day;

/// A day of a merchant.
#[derive(Clone, Copy, PartialEq, Eq, Hash)]
pub struct MerchantDay {
    pub merchant: MerchantId,
    pub day: Day,
}
