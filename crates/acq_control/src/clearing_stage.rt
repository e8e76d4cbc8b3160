//! How far the answer to a line that asks for a clearing file is made.

use acq_clearing::Bookmark;

/// How far a clearing file is made that a line asked for.
#[derive(Clone, Copy)]
pub enum ClearingStage {
    /// Its bytes are counted up to a bookmark: so many.
    Counting(Bookmark, u64),
    /// It is said up to a bookmark.
    Saying(Bookmark),
}
