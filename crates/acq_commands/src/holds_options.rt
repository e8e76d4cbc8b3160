//! The open holds that are asked for.

use acq_core::{MerchantId, Moment};

/// The open holds of a merchant, in the book in a file.
#[derive(Drop)]
pub struct HoldsOptions {
    /// The path of the book's file.
    pub path: String,
    /// The merchant.
    pub merchant: MerchantId,
    /// The moment at which they are open.
    pub moment: Moment,
}
