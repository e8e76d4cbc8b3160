//! What is left of an earlier request.

use crate::status::Status;
use acq_message::Amount;

/// What a completion or a reversal leaves of the request that it follows.
#[derive(Clone, Copy)]
pub struct Remains {
    pub status: Status,
    pub amount: Amount,
}
