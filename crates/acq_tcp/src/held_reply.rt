//! Replies that are about to be written.

use acq_reasons::Reason;
use std::time::Duration;

/// A reply of which nothing was written yet.
#[derive(Clone, Copy)]
pub(crate) struct HeldReply {
    /// How long the host took for the messages of its round, where the times are known.
    pub(crate) took: Option<Duration>,
    /// How long it is since the last byte of its message came.
    pub(crate) total: Option<Duration>,
    /// Why it has another code than 00, if it has.
    pub(crate) reason: Option<Reason>,
}
