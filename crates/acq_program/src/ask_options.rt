//! The host that messages are sent to, and how often.

use std::net::SocketAddrV4;

/// The host that messages are sent to, and how often.
#[derive(Drop)]
pub struct AskOptions {
    /// The address and the port at which it takes connections.
    pub endpoint: SocketAddrV4,
    /// For how many seconds a reply is waited for; 0 is for ever.
    pub within: u64,
    /// How often one message is sent, with its trace number counted up, where that is asked for.
    pub repeat: Option<u64>,
}
