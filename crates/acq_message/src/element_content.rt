//! Contents of elements.

ghost use Rattle.std.specs.Prelude.{◌≡◌, IfOk};

use std::alloc::{AllocError, Global};
use std::fmt;
use std::marker::Model;

/// The content of an element as a request had it, perhaps empty. Contracts see it as the list of
/// its bytes. It may be a card number, so only its length is ever shown.
#[derive(Drop)]
pub struct ElementContent {
    bytes: Vec<u8>,
}

impl Model for ElementContent {
    ghost use Rattle.std.specs.Prelude.{ℕ, List};

    ghost Value = { List ℕ };

    ghost view = { λ c. c.bytes.items };
}

impl ElementContent {
    /// A copy of these bytes.
    pub fn from_slice(alloc: Global, bytes: &[u8]) -> Result<ElementContent, AllocError>
        ensures { IfOk result (λ content. content ≡ bytes.now) }
    {
        let bytes = Vec::from_slice(alloc, bytes)?;
        Ok(ElementContent { bytes })
    }

    /// A copy.
    pub fn copied(&self, alloc: Global) -> Result<ElementContent, AllocError>
        ensures { IfOk result (λ content. content ≡ self.now) }
    {
        ElementContent::from_slice(alloc, self.as_bytes())
    }

    /// The bytes.
    pub fn as_bytes(&self) -> &[u8]
        ensures { result.now ≡ self.now }
    {
        self.bytes.as_slice()
    }
}

impl fmt::Debug for ElementContent {
    ghost use Rattle.std.specs.Prelude.{Some};
    ghost use Rattle.acq_message.specs.Shown.{shown_content};

    ghost debug_output = { λ bytes. Some (shown_content bytes) };

    fn fmt<W: fmt::Write>(&self, f: &mut fmt::Formatter<W>) -> fmt::Result {
        write!(f, "ElementContent({} bytes)", self.bytes.len())
    }
}
