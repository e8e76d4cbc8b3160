//! Queries that a gateway was told.

use acq_core::{MerchantId, Reference};

/// A query that a gateway was told: its row's number, and the request's merchant and reference.
#[derive(Clone, Copy)]
pub struct ToldQuery {
    pub number: u64,
    pub merchant: MerchantId,
    pub reference: Reference,
}
