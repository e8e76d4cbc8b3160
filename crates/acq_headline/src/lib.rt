//! The headline: what each merchant gets depends on its own events alone, and what was posted and
//! cleared stays.
//!
//! [`run`] takes events as `Host::run` does and says so of what it leaves. The laws say the same of
//! whatever led to outputs and tables: of a connection that is served, and of many at once. They
//! stand above the host and its connections, which say which events they took, what went out and
//! which tables they left, and don't wait for these proofs.
#![tactic(auto)]

mod laws;
mod running;

pub use laws::{
    clearing_is_kept, connections_are_alone, merchants_are_alone, postings_are_kept,
    repeats_are_quiet, runs_are_alone, same_in_two_runs, told_is_kept,
};
pub use running::run;
