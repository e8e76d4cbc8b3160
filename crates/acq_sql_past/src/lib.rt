//! What may have made a book in SQL.
//!
//! [`past_of_book`] reads the rows of a book, each table as far as it can be read, and has
//! `acq_past` seek events in them. What these lead to, `acq_sql_audit` compares with the book.
#![tactic(auto)]

mod listed;
mod reading;
mod seeking;

pub use seeking::past_of_book;
