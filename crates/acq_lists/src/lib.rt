//! The lists of a book in memory: rows in the order in which they came, and what is found by hash.
//!
//! A list makes room before it takes a row, so where memory runs out it is as it was.
#![tactic(auto)]

mod day_sums;
mod merchant_day;
mod merchant_reference;
mod merchant_terminal;
mod merchants;
mod postings;
mod put;
mod reconciliations;
mod requests;
mod terminals;

pub use merchant_day::MerchantDay;
pub use merchant_terminal::MerchantTerminal;
pub use merchants::Merchants;
pub use postings::Postings;
pub use reconciliations::Reconciliations;
pub use requests::Requests;
pub use terminals::Terminals;
