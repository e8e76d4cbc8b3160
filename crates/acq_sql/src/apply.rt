//! Any change of a book in SQL.
//!
//! [`apply`] makes all of a change, or none of it, in a transaction of its own; or it makes the
//! change inside the transaction that is open, and commits nothing. What a change needs beside its
//! rows, as the next number of a posting, is looked up there.

mod answers;
mod applying;
mod ended_requests;
mod follows;
mod numbers;
mod request_columns;
mod requests;

pub use applying::apply;
pub use ended_requests::add_ended;
pub use requests::add_request;
