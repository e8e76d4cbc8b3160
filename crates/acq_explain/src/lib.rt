//! What the host would say to an event, and why, in words.
//!
//! An [`Explained`] is a text of a book: it looks at what the event would be decided on, and
//! changes nothing. The text is defined over the decision's definitions (`specs/Explained.antt`):
//! for a refusal the code and the reason, else what goes out; of a request the checks that it
//! passes (`specs/Checks.antt`); and the values that decided (`specs/Details.antt`), or differ
//! (`specs/Differing.antt`, `specs/Figures.antt`). No card number is shown whole. That the checks
//! hold is a law ([`laws`]).
#![tactic(auto)]

mod check;
mod details;
mod differing;
mod explained;
mod figures;
mod first_line;
pub mod laws;
mod passed;
mod writing;

pub use explained::Explained;
