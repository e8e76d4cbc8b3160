//! What the checks of a decision test, each by itself; what earlier requests let happen stands in
//! `acq_rules`.

pub use crate::deciding::admission::{has_valid_card, is_expired};
pub use crate::deciding::reversal::fits_acquirer;
pub use crate::deciding::{has_transaction, is_full};
