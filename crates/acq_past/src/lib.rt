//! The past of a book, sought in its rows.
//!
//! [`find_past`] makes events that lead to the rows of a book, from a new book on, if a host wrote
//! them. Nothing is promised of them: whoever takes them and compares what they lead to with the
//! book has the proof, or the first row that differs. What the rows don't say is chosen: moments,
//! expiries, and the order of answers, each of which comes as late as what follows it lets it.
#![tactic(auto)]

mod book_rows;
mod finder;
mod finder_ranges;
mod frames;
mod past;
mod places;
mod posted;

pub use book_rows::BookRows;
pub use past::{Past, find_past};
pub use posted::Posted;
