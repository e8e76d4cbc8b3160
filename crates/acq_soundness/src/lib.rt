//! A book's tables are sound, whatever comes.
//!
//! What every run of events keeps of the tables ([`book_laws`]), which who stores them and who takes
//! events rest on, and that each value of the host's types is such as the laws take it. Laws that
//! speak of a party's history stand in `acq_history`.
#![tactic(auto)]

pub mod book_laws;
mod types;

pub use types::{every_event, every_opening, every_verdict};
