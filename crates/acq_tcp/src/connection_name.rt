//! What a connection is called in the log.

use std::net::SocketAddr;

/// What a connection is called in the log: its number, from 1, and whence it came.
#[derive(Clone, Copy)]
pub(crate) enum ConnectionName {
    /// A terminal's, from this address.
    Terminal(u64, SocketAddr),
    /// One at the control socket.
    Control(u64),
    /// One of a gateway to issuers.
    Gateway(u64),
}
