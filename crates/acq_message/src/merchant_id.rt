//! Names of merchants.

ghost use Rattle.std.specs.Prelude.{◌∷◌, ◌++◌, [], take, drop};
ghost use Rattle.std.proofs.Common.{rules};
ghost use Rattle.std.specs.Cmp.Rules.{hashing};
ghost use Rattle.std.specs.Prelude.{◌≡◌, true, SomeIff};
ghost use Rattle.acq_message.specs.Names.{is_merchant};

use iso_codec::all_printable;
use std::hash::{Hash, Hasher};
use std::marker::Model;

/// A merchant's name, as element 42 has it: fifteen bytes from 0x20 to 0x7E. Contracts see it as
/// the list of these bytes. Source: ISO 8583:1987, card acceptor identification code.
#[derive(Clone, Copy, PartialEq, Eq)]
pub struct MerchantId {
    bytes: [u8; 15],
}

impl Model for MerchantId {
    ghost use Rattle.std.specs.Prelude.{ℕ, List, ◌≡◌, true};
    ghost use Rattle.acq_message.specs.Names.{is_merchant};

    ghost Value = { List ℕ };

    ghost view = { λ x. x.bytes };

    ghost invariant = { λ x. is_merchant x.bytes ≡ true };

    ghost inverse = { λ b. record { bytes = b } };
}

impl MerchantId {
    /// The merchant that these bytes name, or `None` where they aren't fifteen printable ones. It
    /// takes no memory.
    pub fn read(text: &[u8]) -> Option<MerchantId>
        ensures { SomeIff result (is_merchant text.now ≡ true) text.now }
    {
        match <[u8; 15]>::try_from(text) {
            Ok(bytes) if all_printable(&bytes) => Some(MerchantId { bytes }),
            _ => None,
        }
    }

    /// The fifteen bytes.
    pub fn to_bytes(&self) -> [u8; 15]
        ensures value { result ≡ self.now }
        ensures valid { is_merchant self.now ≡ true }
    {
        self.bytes
    }
}

impl Hash for MerchantId {
    // Whole words, which a hasher takes fastest.
    ghost hash_input = { λ name. take 8 name ∷ drop 7 name ∷ [] };

    ghost respects_eq = { Prim.search (hashing, rules) };

    fn hash<H: Hasher>(&self, state: &mut H) {
        state.write(&self.bytes[..8]);
        state.write(&self.bytes[7..]);
    }
}
