//! References of merchants.

use acq_core::{MerchantId, Reference};

/// A reference of a merchant.
#[derive(Clone, Copy, PartialEq, Eq, Hash)]
pub(crate) struct MerchantReference {
    pub merchant: MerchantId,
    pub reference: Reference,
}
