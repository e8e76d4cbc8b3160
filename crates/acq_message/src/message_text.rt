//! The bytes of one message.

ghost use Rattle.std.specs.Prelude.{◌≡◌, IfOk};

use std::alloc::{AllocError, Global};
use std::fmt;
use std::marker::Model;

/// The bytes of one message: a frame without its length. Contracts see it as the list of these
/// bytes. They may hold a card number, so only their count is ever shown.
#[derive(Drop)]
pub struct MessageText {
    bytes: Vec<u8>,
}

impl Model for MessageText {
    ghost use Rattle.std.specs.Prelude.{ℕ, List};

    ghost Value = { List ℕ };

    ghost view = { λ t. t.bytes.items };
}

impl MessageText {
    /// A copy of these bytes.
    pub fn from_slice(alloc: Global, bytes: &[u8]) -> Result<MessageText, AllocError>
        ensures { IfOk result (λ text. text ≡ bytes.now) }
    {
        let bytes = Vec::from_slice(alloc, bytes)?;
        Ok(MessageText { bytes })
    }

    /// A text of these bytes.
    pub fn from_vec(bytes: Vec<u8>) -> MessageText
        ensures { result ≡ bytes.items }
    {
        MessageText { bytes }
    }

    /// A copy.
    pub fn copied(&self, alloc: Global) -> Result<MessageText, AllocError>
        ensures { IfOk result (λ text. text ≡ self.now) }
    {
        MessageText::from_slice(alloc, self.as_bytes())
    }

    /// The bytes.
    pub fn as_bytes(&self) -> &[u8]
        ensures { result.now ≡ self.now }
    {
        self.bytes.as_slice()
    }
}

impl fmt::Debug for MessageText {
    ghost use Rattle.std.specs.Prelude.{Some};
    ghost use Rattle.acq_message.specs.Shown.{shown_message_text};

    ghost debug_output = { λ bytes. Some (shown_message_text bytes) };

    fn fmt<W: fmt::Write>(&self, f: &mut fmt::Formatter<W>) -> fmt::Result {
        write!(f, "MessageText({} bytes)", self.bytes.len())
    }
}
