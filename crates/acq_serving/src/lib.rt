//! Connections whose reads wait.
//!
//! [`serve`] serves one of them to its end, and [`answer_message`] answers one message, for a host
//! that reads its frames itself. [`Connections`] come one after the other.
#![tactic(auto)]

mod connections;
mod later_end;
mod serving;

pub use connections::{Connections, serve_ends};
pub use later_end::LaterEnd;
pub use serving::{answer_message, serve};
