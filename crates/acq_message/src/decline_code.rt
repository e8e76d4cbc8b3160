//! Codes that issuers decline with.

ghost use Rattle.std.specs.Prelude.{◌≡◌, true, SomeIff};
ghost use Rattle.acq_message.specs.IssuerTexts.{is_decline_code};

use iso_codec::all_alphanumeric;
use std::marker::Model;

/// The code that an issuer declines with, as element 39 has it: two bytes of class an, other than
/// `00`. It may be one that the host gives for its own reasons. Contracts see it as the list of
/// these bytes. Source: ISO 8583:1987, response code.
#[derive(Clone, Copy)]
pub struct DeclineCode {
    bytes: [u8; 2],
}

impl Model for DeclineCode {
    ghost use Rattle.std.specs.Prelude.{ℕ, List, ◌≡◌, true};
    ghost use Rattle.acq_message.specs.IssuerTexts.{is_decline_code};

    ghost Value = { List ℕ };

    ghost view = { λ x. x.bytes };

    ghost invariant = { λ x. is_decline_code x.bytes ≡ true };

    ghost inverse = { λ b. record { bytes = b } };
}

impl DeclineCode {
    /// The code of these bytes, or `None` where they aren't two of class an, or are `00`. It takes
    /// no memory.
    pub fn read(text: &[u8]) -> Option<DeclineCode>
        ensures { SomeIff result (is_decline_code text.now ≡ true) text.now }
    {
        match <[u8; 2]>::try_from(text) {
            Ok(bytes) if all_alphanumeric(&bytes) && bytes != *b"00" => Some(DeclineCode { bytes }),
            _ => None,
        }
    }

    /// The two bytes.
    pub fn to_bytes(&self) -> [u8; 2]
        ensures value { result ≡ self.now }
        ensures valid { is_decline_code self.now ≡ true }
    {
        self.bytes
    }
}
