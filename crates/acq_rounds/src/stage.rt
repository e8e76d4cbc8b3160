//! What the next turn of a connection waits for.

use acq_core::Query;

/// What the next turn of a connection waits for.
#[derive(Drop)]
pub enum Stage {
    /// For a message.
    Listening,
    /// For the issuer's answer to this.
    Asking(Query),
    /// For nothing: the issuer's answer to this is there, and is to be taken.
    Answered(Query),
}
