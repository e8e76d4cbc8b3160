//! A gateway to issuers, without its socket: what it sends and what it gets, line by line; and the
//! desk at which the requests lie that it is asked about, where whoever serves terminals finds its
//! answers.
//!
//! A request that terminals' connections wait for is answered by that connection's own turn, in the
//! group of its round. What nobody waits for, as behind a stop, is answered by a control line of
//! the host's own, which the desk hands on.
#![tactic(auto)]

mod asked;
mod brought;
mod desk_stream;
mod gateway;
mod gateway_desk;
mod gateway_issuer;
mod gateway_line;
mod sent_answer;
mod waiting;

pub use desk_stream::DeskStream;
pub use gateway::Gateway;
pub use gateway_desk::GatewayDesk;
pub use gateway_issuer::GatewayIssuer;
