//! Authorization ids.

ghost use Rattle.std.specs.Prelude.{◌≡◌, true, SomeIff};
ghost use Rattle.acq_message.specs.IssuerTexts.{is_authorization_id};

use iso_codec::all_alphanumeric;
use std::marker::Model;

/// What an issuer approves under, as element 38 has it: six bytes of class an. Contracts see it as
/// the list of these bytes. Source: ISO 8583:1987, authorization identification response.
#[derive(Clone, Copy)]
pub struct AuthorizationId {
    bytes: [u8; 6],
}

impl Model for AuthorizationId {
    ghost use Rattle.std.specs.Prelude.{ℕ, List, ◌≡◌, true};
    ghost use Rattle.acq_message.specs.IssuerTexts.{is_authorization_id};

    ghost Value = { List ℕ };

    ghost view = { λ x. x.bytes };

    ghost invariant = { λ x. is_authorization_id x.bytes ≡ true };

    ghost inverse = { λ b. record { bytes = b } };
}

impl AuthorizationId {
    /// The id of these bytes, or `None` where they aren't six of class an. It takes no memory.
    pub fn read(text: &[u8]) -> Option<AuthorizationId>
        ensures { SomeIff result (is_authorization_id text.now ≡ true) text.now }
    {
        match <[u8; 6]>::try_from(text) {
            Ok(bytes) if all_alphanumeric(&bytes) => Some(AuthorizationId { bytes }),
            _ => None,
        }
    }

    /// The six bytes.
    pub fn to_bytes(&self) -> [u8; 6]
        ensures value { result ≡ self.now }
        ensures valid { is_authorization_id self.now ≡ true }
    {
        self.bytes
    }
}
