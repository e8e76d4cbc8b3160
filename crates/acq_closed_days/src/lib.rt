//! A day that is over, and of which nothing waits for an issuer, keeps its postings and its totals,
//! whatever comes: so its clearing file is one text, now and later. What a report says of it
//! besides may change: a reconciliation of it may come later, and a merchant may be enrolled.
#![tactic(auto)]

pub mod laws;
