//! Terminals at merchants.

use acq_message::{MerchantId, TerminalId};

/// A row of the terminals.
#[derive(Clone, Copy)]
pub struct Terminal {
    pub merchant: MerchantId,
    pub id: TerminalId,
}
