//! Books by prefixes of six digits as books by eight: [`laws`].
#![tactic(auto)]

pub mod laws;
