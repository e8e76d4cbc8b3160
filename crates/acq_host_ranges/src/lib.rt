//! A list that becomes the ranges of a host that is alive, over its control connection.
//!
//! [`set_host_ranges`] asks the host for its ranges, and tells it the events by which they become
//! the list, one after the other; [`write_host_changes`] writes the lines of these events alone.
//! What is said between the two is defined in `specs/Exchanges.antt`.
#![tactic(auto)]

mod asking;
mod listing;
mod setting;
mod taking;

pub use setting::{set_host_ranges, write_host_changes};
