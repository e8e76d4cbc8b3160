//! Gateways to issuers that connect one after the other, without sockets.
//!
//! [`Gateways`] are such connections, over any streams: the one that is there, and those that went.
//! What went over each is what it was told, in order, and it was told what stood in the host's book
//! behind the steps that were done until then (`GatewaysFollow` in `specs/Following.antt`).
#![tactic(auto)]

mod gateways;
pub mod laws;
mod open_gateway;
mod readiness;

pub use gateways::Gateways;
pub use readiness::Readiness;
