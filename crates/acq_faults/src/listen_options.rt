//! What is asked of connections that are served.

use crate::patience::Patience;
use acq_core::Moment;
use std::net::SocketAddrV4;

/// Connections that are served over a book.
#[derive(Drop)]
pub struct ListenOptions {
    /// The path of the book's file.
    pub path: String,
    /// The address and the port that are listened on.
    pub endpoint: SocketAddrV4,
    /// How many connections are served.
    pub count: u64,
    /// How many of them are served at once.
    pub together: usize,
    /// How many of them may come from one address; without a number as many as come.
    pub from_one_address: Option<usize>,
    /// Whether each begins with the header of a proxy, which says whence it comes.
    pub proxy_protocol: bool,
    /// How long a connection may take.
    pub patience: Patience,
    /// The path of the file that says what issuers answer; without one, and without a gateway, no
    /// issuer can be reached.
    pub issuers: Option<String>,
    /// The path of the socket's file at which a gateway to issuers connects; without one none does.
    pub gateway: Option<String>,
    /// Whether requests that wait for their issuer are ended first, without an answer.
    pub end_waiting: bool,
    /// The moment at which all frames come; without one it is the clock's.
    pub moment: Option<Moment>,
    /// The path of the socket's file at which control connections come; without one none do.
    pub control: Option<String>,
    /// The path of the file that takes a log for operators; without one none is written.
    pub log: Option<String>,
    /// How many bytes that file has at most; 0 is as many as come.
    pub log_bytes: u64,
}
