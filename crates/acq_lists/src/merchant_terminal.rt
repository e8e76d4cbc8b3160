//! Names of terminals at merchants.

use acq_core::{MerchantId, TerminalId};

/// The name of a terminal at a merchant.
#[derive(Clone, Copy, PartialEq, Eq, Hash)]
pub struct MerchantTerminal {
    pub merchant: MerchantId,
    pub id: TerminalId,
}
