//! What stands at the front of a connection that a proxy handed on.

use std::net::SocketAddr;

/// What stands at the front of a connection's bytes.
#[derive(Clone, Copy, Debug, PartialEq, Eq)]
pub enum Header {
    /// Nothing, or a header that is begun: more bytes may make it whole.
    Partial,
    /// A whole header of so many bytes, and the peer that it names, if it names one.
    Whole {
        bytes: usize,
        peer: Option<SocketAddr>,
    },
    /// No header.
    Missing,
}
