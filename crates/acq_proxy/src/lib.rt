//! The header that a proxy sends in front of a connection that it hands on, which names who is
//! behind it: HAProxy's document "The PROXY protocol, Versions 1 & 2", whose sections are named
//! here. It neither reads nor writes: it looks at the bytes that came.
#![tactic(auto)]

mod block;
mod header;
mod line;
mod reading;

pub use header::Header;
pub use reading::{LONGEST_HEADER, header_at};
