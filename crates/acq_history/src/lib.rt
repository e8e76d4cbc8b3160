//! The history of each party, and the laws of every run of events.
//!
//! What one party's own events say, with no tables, stands whole in `specs`: the entries of a
//! history (`Entries.antt`), what a history says (`History.antt`), and a party's own events with
//! what it gets of them (`PartyHistory.antt`). The laws hold of these definitions and of those of
//! `acq_core`, whatever comes: what histories keep ([`history_laws`]), that parties are isolated
//! ([`party_laws`]), and the laws of the books ([`posting_laws`]). What the tables keep stands in
//! `acq_soundness`.
#![tactic(auto)]

pub mod history_laws;
pub mod party_laws;
pub mod posting_laws;
