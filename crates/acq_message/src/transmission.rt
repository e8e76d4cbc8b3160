//! Transmission dates and times.

ghost use Rattle.std.specs.Prelude.{◌∷◌, ◌++◌, [], take, drop};
ghost use Rattle.std.proofs.Common.{rules};
ghost use Rattle.std.specs.Cmp.Rules.{hashing};
ghost use Rattle.std.specs.Prelude.{◌≡◌, true, SomeIff};
ghost use Rattle.acq_message.specs.Names.{is_transmission};

use iso_codec::all_digits;
use std::hash::{Hash, Hasher};
use std::marker::Model;

/// When a terminal sent a message by its own clock, as element 7 has it: ten digits, MMDDhhmmss. It
/// serves as a part of a request's key, so any ten digits are taken (own profile). Contracts see it
/// as the list of their bytes. Source: ISO 8583:1987, transmission date and time.
#[derive(Clone, Copy, PartialEq, Eq)]
pub struct Transmission {
    bytes: [u8; 10],
}

impl Model for Transmission {
    ghost use Rattle.std.specs.Prelude.{ℕ, List, ◌≡◌, true};
    ghost use Rattle.acq_message.specs.Names.{is_transmission};

    ghost Value = { List ℕ };

    ghost view = { λ x. x.bytes };

    ghost invariant = { λ x. is_transmission x.bytes ≡ true };

    ghost inverse = { λ b. record { bytes = b } };
}

impl Transmission {
    /// The date and time of these bytes, or `None` where they aren't ten digits. It takes no
    /// memory.
    pub fn read(text: &[u8]) -> Option<Transmission>
        ensures { SomeIff result (is_transmission text.now ≡ true) text.now }
    {
        match <[u8; 10]>::try_from(text) {
            Ok(bytes) if all_digits(&bytes) => Some(Transmission { bytes }),
            _ => None,
        }
    }

    /// The ten digits.
    pub fn to_bytes(&self) -> [u8; 10]
        ensures value { result ≡ self.now }
        ensures valid { is_transmission self.now ≡ true }
    {
        self.bytes
    }
}

impl Hash for Transmission {
    // Whole words, which a hasher takes fastest.
    ghost hash_input = { λ sent. take 8 sent ∷ drop 2 sent ∷ [] };

    ghost respects_eq = { Prim.search (hashing, rules) };

    fn hash<H: Hasher>(&self, state: &mut H) {
        state.write(&self.bytes[..8]);
        state.write(&self.bytes[2..]);
    }
}
