//! A book in a database of SQL, behind the trait of all books.
//!
//! [`SqlBook`] keeps the tables in a connection of the kit's `sqlite`. Each look-up reads the rows
//! that it needs, each change is one transaction, and a stop leaves the tables from before or those
//! with the whole change. How one is made, checked, put in order or migrated stands in
//! `acq_sql_opening`.
#![tactic(auto)]

mod answers;
mod apply;
mod laws;
mod memo;
mod once_book;
mod refusal;
mod sql_book;

pub use laws::a_stop_leaves_a_book;
pub use memo::{MayWait, Memo, UsedOn};
pub use once_book::OnceBook;
pub use refusal::Refusal;
pub use sql_book::SqlBook;
