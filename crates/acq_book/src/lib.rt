//! The book: what keeps the tables.
//!
//! A [`Book`] looks up rows, walks over them, and makes changes; its contracts speak of the tables
//! alone, however they are kept. What keeps them stands in crates of its own, so that whoever takes
//! any book rests on none of these.
#![tactic(auto)]

mod book;
mod book_fault;
mod visit;

pub use book::Book;
pub use book_fault::BookFault;
pub use visit::Visit;
