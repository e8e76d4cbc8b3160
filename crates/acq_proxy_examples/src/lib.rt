//! Headers of the PROXY protocol as its document has them, and such that are none, for the tests of
//! `acq_proxy`.
#![tactic(auto)]

#[cfg(test)]
mod tests;
