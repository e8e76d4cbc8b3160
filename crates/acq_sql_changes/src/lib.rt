//! Each change of a book in SQL, inside a transaction that is open, and what begins and ends one.
//!
//! A change that succeeded shows the tables with the whole of it, and commits nothing. After one
//! that failed the transaction is to be rolled back, which leaves the tables from before it; a stop
//! leaves these, or all that was committed (`specs/Transactions.antt`). So several changes, and
//! look-ups between them, are kept together or not at all. The running totals stay those of the
//! lists. Each write is one statement (`acq_sql_writes`).
#![tactic(auto)]

mod answers;
mod cutover;
mod enrolments;
mod follows;
mod issuer_answer;
mod posted_answers;
mod posted_requests;
mod ranges;
mod reconciliations;
mod requests;
mod tallies;
mod transaction;
mod widening;

pub use answers::answer;
pub use cutover::cut_over;
pub use enrolments::{enrol, enrol_terminal};
pub use follows::{follow, follow_and_post};
pub use issuer_answer::IssuerAnswer;
pub use posted_answers::answer_and_post;
pub use posted_requests::record_and_post;
pub use ranges::{add_range, drop_range};
pub use reconciliations::reconcile;
pub use requests::record_request;
pub use transaction::{begin, keep, roll_back};
pub use widening::widen_book;
