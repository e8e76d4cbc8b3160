//! What the acquirer owes its merchants, in tables: the settlement report of a day as CSV, and
//! statements of merchants.
//!
//! [`write_report_csv`] has the numbers of the settlement report, and their sums by currency;
//! [`report_csv_once_compared`] writes the same of a day that was compared slice by slice.
//! [`write_statement`] tells of each merchant and day what its terminals posted, what it has in
//! total and what was reconciled, as text or as CSV. The texts are defined over the tables in
//! `specs/ReportCsv.antt` and `specs/Statement.antt`. They are put in parts, one for each item of a
//! list (`part.rt`), so no more of a text is held than a record.
//!
//! A [`Gathering`] comes to the statement of a merchant's day slice by slice, while events are
//! taken between the slices.
#![tactic(auto)]

mod asked;
mod block;
mod claim;
mod claims;
mod currencies;
mod currency_lines;
mod currency_records;
mod day_record;
mod day_sums;
mod days;
mod enrolled;
mod figures;
mod gathering;
pub mod laws;
mod leg_sum;
mod leg_texts;
mod lines;
mod merchant_records;
mod part;
mod piece;
mod posted_sums;
mod report_csv;
mod statement;
mod statement_blocks;
mod statement_form;
mod sums;
mod terminal_sums;
mod terminals;

pub use day_sums::write_day_sums;
pub use days::Days;
pub use gathering::Gathering;
pub use report_csv::{report_csv_once_compared, write_report_csv};
pub use statement::write_statement;
pub use statement_form::StatementForm;
