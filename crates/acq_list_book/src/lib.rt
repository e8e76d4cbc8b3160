//! The book in memory.
//!
//! A [`ListBook`] keeps the tables in memory, each list with what is found by hash beside its rows.
//! A change takes all the memory that it needs before it makes anything, so where memory runs out
//! the tables are as they were. A group of changes is made in the tables themselves, and one that
//! is given up shuts the book.
#![tactic(auto)]

mod copies;
mod group;
mod list_book;
mod list_tables;
mod walks;

pub use list_book::ListBook;
