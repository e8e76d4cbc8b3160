//! Whether a database is a book in SQL of a version: it has the book's tables in one of their two
//! forms, to the last column, key and index, and no other object, and the book's one row with that
//! version. It is compared with the tables of each form, which are made here, too.
#![tactic(auto)]

mod alike;
mod checking;
mod opening_fault;
mod tables;

pub use alike::{Alike, has_same_columns};
pub use checking::{check_book, create_tables, has_form, is_book_schema};
pub use opening_fault::OpeningFault;
pub use tables::{create_enrolments, create_records};
