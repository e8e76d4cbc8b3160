//! How one turn of a control connection went.

use crate::wish::Wish;

/// How one turn of a control connection went.
#[derive(Clone, Copy, Debug, PartialEq, Eq)]
pub enum ControlTurn {
    /// No line is whole.
    Waits,
    /// Rows are gone over before the next line is taken.
    Prepares,
    /// A line was taken, with this wish, and what is said to it is to be written.
    Took(Wish),
}
