//! What the host takes by a connection at once.

use acq_core::Query;

/// What the host takes by a connection at once: its next message, or the issuer's answer to what
/// its last one asked.
#[derive(Drop)]
pub enum Turn<'q> {
    Message(Vec<u8>),
    Answer(&'q Query),
}
