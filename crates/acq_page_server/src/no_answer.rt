//! Answers that don't come.

use std::alloc::AllocError;

/// A host gave no answer, or there was no memory for it.
#[derive(Clone, Copy, Debug, Drop)]
pub struct NoAnswer;

impl From<AllocError> for NoAnswer {
    fn from(_: AllocError) -> NoAnswer {
        NoAnswer
    }
}
