//! The statement that is asked for.

use acq_core::MerchantId;
use acq_statement::{Days, StatementForm};

/// A statement of merchants of the book in a file.
#[derive(Drop)]
pub struct StatementOptions {
    /// The path of the book's file.
    pub path: String,
    /// The merchants; without one all of them.
    pub merchants: Vec<MerchantId>,
    pub days: Days,
    pub form: StatementForm,
}
