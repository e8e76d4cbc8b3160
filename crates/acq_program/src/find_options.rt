//! The request that is looked for.

use acq_core::MerchantId;
use acq_inquiry::Inquiry;

/// A request of a merchant of the book in a file.
#[derive(Drop)]
pub struct FindOptions {
    /// The path of the book's file.
    pub path: String,
    pub merchant: MerchantId,
    pub inquiry: Inquiry,
}
