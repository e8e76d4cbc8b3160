//! Each change of a row of the book in SQL, one statement each.
//!
//! Each write is one statement inside a transaction, and says what it makes of the tables that the
//! rows hold. What a transaction of several writes makes is for its caller to say.
#![tactic(auto)]

mod answers;
mod book_row;
mod days;
mod enrolments;
mod postings;
mod ranges;
mod requests;
mod running;
mod statement;
mod widening;

pub use answers::{answer_request, follow_request};
pub use book_row::add_book;
pub use days::{add_reconciliation, set_day};
pub use enrolments::{add_merchant, add_terminal};
pub use postings::add_posting;
pub use ranges::{add_range, drop_range};
pub use requests::add_request;
pub use running::raise;
pub use statement::execute;
pub use widening::{set_version, turn_ranges, widen_ranges};
