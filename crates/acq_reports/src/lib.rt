//! Reports over any book: the settlement report of a day that is over, a merchant's open holds, and
//! what other reports are made of.
//!
//! [`open_holds`] puts a line for each row that the book hands over, and keeps none of the rows.
//! [`settlement`] compares the day's postings with its totals first, and keeps the merchants' names
//! and sums meanwhile. The texts are defined over the tables in `specs/SettlementReport.antt` and
//! `specs/OpenHolds.antt`. What writes another text of a book's rows holds a [`Report`], which
//! gathers the lines, writes them in pieces of 64 KiB and tells how far they went out, and makes
//! its lines by [`record_text`]; what reports on a day calls [`check_day`] and [`check_sums`]
//! first.
//!
//! A [`DayComparison`] compares them slice by slice, while events are taken between the slices, for
//! [`settlement_once_compared`]. What goes over rows so goes over [`SLICE`] of them at a time.
#![tactic(auto)]

mod day_comparison;
mod hold_ends;
mod holds;
pub mod laws;
mod leg_sum;
mod masks;
mod merchant_sums;
mod names;
mod piece_buffer;
mod prefixes;
mod records;
mod refusals;
mod report;
mod report_fault;
mod settlement_report;
mod slices;
mod stop;
mod summed_merchant;
mod sums;

pub use day_comparison::DayComparison;
pub use hold_ends::hold_end_text;
pub use holds::open_holds;
pub use names::merchant_names;
pub use prefixes::prefix_text;
pub use records::{content_bytes, record_text, reference_text};
pub use refusals::{check_day, check_merchant};
pub use report::Report;
pub use report_fault::ReportFault;
pub use settlement_report::{settlement, settlement_once_compared, state_word};
pub use slices::{SLICE, goes_on};
pub use sums::check_sums;
