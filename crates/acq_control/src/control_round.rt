//! What one round of a control connection did.

use crate::wish::Wish;

/// What one round of a control connection did.
#[derive(Clone, Copy, Debug, PartialEq, Eq)]
pub enum ControlRound {
    /// It wrote, or read: there may be more to do.
    GoesOn,
    /// It made a slice of an answer, or went over rows for one: there is more to do.
    Made,
    /// It did what a line asks, which has this wish.
    Took(Wish),
    /// Nothing can be written or read yet.
    Waits,
    /// The connection ended between two lines.
    Ended,
}
