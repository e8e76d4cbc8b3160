//! What is said to a line.

use crate::unmade_answer::UnmadeAnswer;
use acq_link::MemorySink;

/// What is said to a line at once, and what is still to be made of the answer.
#[derive(Drop)]
pub(crate) struct Said {
    pub(crate) text: MemorySink,
    pub(crate) unmade: Option<UnmadeAnswer>,
}
