//! The decision on one event, over what was looked up for it; it has no store.
//!
//! [`wanted_by`] says what to look up for an [`Arrival`](acq_core::Arrival), and [`decide_arrival`]
//! what goes out and what changes, over what was looked up; [`wanted`] and [`decide`] do the same
//! of an event. The definitions that they meet are those of `acq_core`: what has to be known to
//! decide on an event (`Known.antt`), the order of the checks (`Decision.antt`), what it results in
//! (`Outcome.antt`), and what it changes in the tables (`Changes.antt`, `Tables.antt`).
#![tactic(auto)]

pub mod checks;
mod deciding;
mod decision;
mod effects;
mod of_arrivals;
mod of_events;
mod recording;

pub use acq_rules::wanted_by;
pub use of_arrivals::decide_arrival;
pub use of_events::{decide, wanted};
