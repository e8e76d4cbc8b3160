//! The stand-in for issuers: a file that says what each card's issuer answers.
//!
//! [`StandIn::read`] reads the file, CSV with a card, a verdict and a text in each record, and with
//! milliseconds where the answer takes its time. The [`StandIn`] is an `Issuer` that answers by it.
//! What a file says stands in `specs/Answers.antt`.
//! [`answers_to_pending`] writes what it says to the requests of a book that wait for an answer, as
//! event lines (`specs/Pending.antt`).
#![tactic(auto)]

mod answer_form;
mod card_answer;
pub mod laws;
mod pending;
mod stand_in;

pub use card_answer::CardAnswer;
pub use pending::answers_to_pending;
pub use stand_in::StandIn;
