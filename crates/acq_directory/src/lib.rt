//! What is enrolled in a book: its merchants, their terminals and the ranges of cards, each as CSV.
//!
//! [`write_listing`] puts a record for each row that the book hands over, and keeps none of the
//! rows. The texts are defined over the tables in `specs/Listings.antt`.
#![tactic(auto)]

pub mod laws;
mod listing;
mod listing_text;
mod records;

pub use listing::Listing;
pub use listing_text::write_listing;
