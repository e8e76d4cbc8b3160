//! The id of a card's issuer.

ghost use Rattle.std.specs.Prelude.{◌≡◌, IfOk};

use std::alloc::{AllocError, Global};
use std::marker::Model;

/// An issuer's id as it is written, leading zeros too. A list of ranges takes it where it is 1 to
/// 11 digits (own profile).
#[derive(Debug, Drop)]
pub struct IssuerId {
    text: Vec<u8>,
}

impl Model for IssuerId {
    ghost use Rattle.std.specs.Prelude.{ℕ, List};

    ghost Value = { List ℕ };

    ghost view = { λ i. i.text.items };
}

impl IssuerId {
    /// An id with this text, whatever it is.
    pub fn new(text: Vec<u8>) -> IssuerId
        ensures { result ≡ text.items }
    {
        IssuerId { text }
    }

    /// An id with a copy of this text.
    pub fn from_slice(alloc: Global, text: &[u8]) -> Result<IssuerId, AllocError>
        ensures { IfOk result (λ issuer. issuer ≡ text.now) }
    {
        Ok(IssuerId {
            text: Vec::from_slice(alloc, text)?,
        })
    }

    /// The text.
    pub fn as_bytes(&self) -> &[u8]
        ensures { result.now ≡ self.now }
    {
        self.text.as_slice()
    }
}
