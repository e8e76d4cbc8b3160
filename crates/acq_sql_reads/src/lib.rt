//! The look-ups and the walks of a book in SQL.
//!
//! Each look-up is one SELECT or two, and says what it gives of the tables that the rows hold
//! (`specs/Looked.antt`). All but the counts (`pending`, `waiting_count`, `used_on`,
//! `terminal_count`, `range_count`) read by a key that an index has. Each walk is one SELECT with
//! ORDER BY, whose rows are read and handed over one at a time, so that no whole list is held
//! (`specs/Walked.antt`). A row that the host can't have written is reported as a corrupt database,
//! by a walk after the rows before it. Over a book whose tables events led to, each of them fails
//! only for memory or since the store failed (`specs/Failing.antt`).
#![tactic(auto)]

mod book_row;
pub mod columns;
mod counts;
mod enrolments;
mod posting_row;
mod ranges;
mod read_row;
mod reconciliations;
mod request_row;
mod requests;
mod running;
mod show_rows;
mod walks;

pub use book_row::limit_and_day;
pub use counts::{
    merchant_and_admitted, pending, range_count, terminal_count, used_on, waiting_count,
};
pub use enrolments::{has_terminal, read_merchant, read_terminal};
pub use posting_row::read_posting;
pub use ranges::{overlapping, range, read_range};
pub use reconciliations::last_reconciliation;
pub use request_row::read_request;
pub use requests::{by_reference, request};
pub use running::{totals, used};
pub use walks::{
    walk_holds, walk_merchants, walk_pending, walk_postings, walk_postings_above,
    walk_postings_behind, walk_ranges, walk_requests_behind, walk_terminals,
};
