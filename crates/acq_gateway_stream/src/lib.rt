//! What a gateway to issuers gets over one connection, from its beginning on: laws over all that
//! may be done with a [`Gateway`](acq_gateway::Gateway).
#![tactic(auto)]

pub mod laws;
