//! Requests that a gateway is asked about.

use acq_core::{MerchantId, Reference, Verdict};

/// A request whose issuer's answer is waited for.
#[derive(Clone, Copy, Drop)]
pub(crate) struct Asked {
    pub(crate) merchant: MerchantId,
    pub(crate) reference: Reference,
    /// Its row's number, once the gateway that is connected was told of it.
    pub(crate) row: Option<u64>,
    /// The answer that came, and wasn't taken yet.
    pub(crate) answer: Option<Verdict>,
}

impl Asked {
    /// Whether it is this one.
    pub(crate) fn is(&self, merchant: MerchantId, reference: Reference) -> bool {
        self.reference == reference && self.merchant == merchant
    }
}
