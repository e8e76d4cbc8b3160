//! Currencies.

ghost use Rattle.std.specs.Prelude.{◌≡◌, true, SomeIff};
ghost use Rattle.acq_message.specs.Names.{is_currency};

use iso_codec::all_alphanumeric;
use std::marker::Model;

/// A merchant's one currency, as element 49 has it: three bytes of class an, such as `978`.
/// Contracts see it as the list of these bytes. Source: ISO 8583:1987, currency code, transaction.
#[derive(Clone, Copy)]
pub struct Currency {
    bytes: [u8; 3],
}

impl Model for Currency {
    ghost use Rattle.std.specs.Prelude.{ℕ, List, ◌≡◌, true};
    ghost use Rattle.acq_message.specs.Names.{is_currency};

    ghost Value = { List ℕ };

    ghost view = { λ x. x.bytes };

    ghost invariant = { λ x. is_currency x.bytes ≡ true };

    ghost inverse = { λ b. record { bytes = b } };
}

impl Currency {
    /// The currency of these bytes, or `None` where they aren't three of class an. It takes no
    /// memory.
    pub fn read(text: &[u8]) -> Option<Currency>
        ensures { SomeIff result (is_currency text.now ≡ true) text.now }
    {
        match <[u8; 3]>::try_from(text) {
            Ok(bytes) if all_alphanumeric(&bytes) => Some(Currency { bytes }),
            _ => None,
        }
    }

    /// The three bytes.
    pub fn to_bytes(&self) -> [u8; 3]
        ensures value { result ≡ self.now }
        ensures valid { is_currency self.now ≡ true }
    {
        self.bytes
    }
}
