//! The clearing file of a day that is over, over any book.
//!
//! [`clearing`] compares the day's postings with its totals first, and keeps the merchants' names
//! and sums meanwhile; then it puts a line for each posting that the book hands over, and keeps
//! none of the postings. The text is defined over the tables in `specs/ClearingFile.antt`, and what
//! is read from it in `specs/ClearedSums.antt`.
//!
//! [`clearing_slice`] gives the same records in slices, each behind a [`Bookmark`], so that a host
//! can serve others between two of them: a day that is over doesn't change meanwhile.
#![tactic(auto)]

mod bookmark;
mod clearing_file;
pub mod laws;
mod slice;

pub use bookmark::Bookmark;
pub use clearing_file::clearing;
pub use slice::{Slice, clearing_slice};
