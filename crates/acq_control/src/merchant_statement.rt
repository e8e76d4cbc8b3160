//! A statement that is asked for.

use acq_core::MerchantId;
use acq_statement::StatementForm;
use day_totals::Day;

/// The statement of a merchant's day, in a form.
#[derive(Clone, Copy)]
pub struct MerchantStatement {
    pub merchant: MerchantId,
    pub day: Day,
    pub form: StatementForm,
}
