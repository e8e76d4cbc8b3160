//! Answers that a gateway sent.

use acq_core::{MerchantId, Reference, Verdict};

/// An answer that a gateway sent.
#[derive(Clone, Copy, Drop)]
pub(crate) struct SentAnswer {
    pub(crate) merchant: MerchantId,
    pub(crate) reference: Reference,
    pub(crate) verdict: Verdict,
}
