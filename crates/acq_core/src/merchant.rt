//! Enrolled merchants.

use crate::first_reference::FirstReference;
use acq_message::{Currency, MerchantId};

/// A row of the merchants.
#[derive(Clone, Copy)]
pub struct Merchant {
    pub id: MerchantId,
    pub currency: Currency,
    pub first_reference: FirstReference,
}
