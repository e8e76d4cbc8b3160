//! Requests as browsers and others send them, and what is replied, for the tests of `acq_page`.
#![tactic(auto)]

#[cfg(test)]
mod tests;
