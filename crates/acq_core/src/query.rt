//! What issuers are asked.

use acq_message::{Amount, MerchantId, Reference, Service};
use card_no::{CardNumber, IssuerId};
use day_totals::Leg;

/// A request as its card's issuer is asked about it. The issuer answers by merchant and reference.
#[derive(Drop)]
pub struct Query {
    pub merchant: MerchantId,
    /// The merchant's reference for the request.
    pub reference: Reference,
    /// An authorization, or a financial request.
    pub service: Service,
    /// Credit for a return, else debit.
    pub leg: Leg,
    pub card: CardNumber,
    pub amount: Amount,
    pub issuer: IssuerId,
}
