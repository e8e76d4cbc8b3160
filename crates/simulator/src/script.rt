//! What a terminal sends over a connection.

use crate::ending::Ending;
use acq_memory_lines::Habits;
use std::alloc::Global;

/// What a terminal sends over a connection: whole messages, and how that ends; and how its end of
/// the connection behaves.
#[derive(Drop)]
pub struct Script {
    pub messages: Vec<Vec<u8>>,
    pub ending: Ending,
    pub habits: Habits,
}

impl Script {
    /// The bytes that it sends: each message behind its length.
    pub fn bytes(&self, alloc: Global) -> Option<Vec<u8>> {
        let mut bytes = Vec::new(alloc);
        for message in self.messages.iter() {
            put_frame(&mut bytes, message.as_slice())?;
        }
        let end: &[u8] = match self.ending {
            Ending::Well => b"",
            Ending::InsideFrame => b"\x00\x800200722",
            // The fault comes between two frames, or inside one.
            Ending::Reset if self.messages.len() % 2 == 0 => b"",
            Ending::Reset => b"\x00",
            Ending::BadLength if self.messages.len() % 2 == 0 => b"\x00\x00",
            Ending::BadLength => b"\x10\x01more",
        };
        bytes.extend_from_slice(end).ok()?;
        Some(bytes)
    }
}

/// Puts a message behind its length.
pub fn put_frame(bytes: &mut Vec<u8>, message: &[u8]) -> Option<()> {
    let length = u16::try_from(message.len()).ok()?;
    bytes.extend_from_slice(&length.to_be_bytes()).ok()?;
    bytes.extend_from_slice(message).ok()
}
