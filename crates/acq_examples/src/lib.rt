//! Worked rows: what a party gets of a run of events, from the frames' bytes to the replies' bytes,
//! what is posted, and what the tables then hold. The checker computes each by the tables and by
//! the party's own history.
#![tactic(auto)]

pub mod cards;
pub mod days;
pub mod enrolment;
pub mod frames;
pub mod holds;
pub mod ranges;
pub mod repeats;
pub mod reversals;
pub mod sales;
pub mod tables;
