//! How a connection goes on.

use acq_page::Request;

/// How a connection goes on.
#[derive(Clone, Copy, Drop)]
pub(crate) enum Step {
    /// The system has to say that it goes on.
    Waits,
    /// It asks.
    Asks(Request),
    /// It is over.
    Ended,
}
