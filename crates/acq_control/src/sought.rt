//! What is to be found.

use acq_core::MerchantId;
use acq_inquiry::Inquiry;

/// What is to be found of a merchant's requests.
#[derive(Clone, Copy)]
pub struct Sought {
    pub merchant: MerchantId,
    pub inquiry: Inquiry,
}
