//! Trace numbers.

ghost use Rattle.std.specs.Prelude.{◌∷◌, ◌++◌, [], take, drop};
ghost use Rattle.std.proofs.Common.{rules};
ghost use Rattle.std.specs.Cmp.Rules.{hashing};
ghost use Rattle.std.specs.Prelude.{◌≡◌, true, SomeIff};
ghost use Rattle.acq_message.specs.Names.{is_trace};

use iso_codec::all_digits;
use std::hash::{Hash, Hasher};
use std::marker::Model;

/// What a terminal numbers its messages with, as element 11 has it: six digits. Contracts see it as
/// the list of their bytes. Source: ISO 8583:1987, systems trace audit number.
#[derive(Clone, Copy, PartialEq, Eq)]
pub struct Trace {
    bytes: [u8; 6],
}

impl Model for Trace {
    ghost use Rattle.std.specs.Prelude.{ℕ, List, ◌≡◌, true};
    ghost use Rattle.acq_message.specs.Names.{is_trace};

    ghost Value = { List ℕ };

    ghost view = { λ x. x.bytes };

    ghost invariant = { λ x. is_trace x.bytes ≡ true };

    ghost inverse = { λ b. record { bytes = b } };
}

impl Trace {
    /// The trace number of these bytes, or `None` where they aren't six digits. It takes no memory.
    pub fn read(text: &[u8]) -> Option<Trace>
        ensures { SomeIff result (is_trace text.now ≡ true) text.now }
    {
        match <[u8; 6]>::try_from(text) {
            Ok(bytes) if all_digits(&bytes) => Some(Trace { bytes }),
            _ => None,
        }
    }

    /// The six digits.
    pub fn to_bytes(&self) -> [u8; 6]
        ensures value { result ≡ self.now }
        ensures valid { is_trace self.now ≡ true }
    {
        self.bytes
    }
}

impl Hash for Trace {
    // Whole words, which a hasher takes fastest.
    ghost hash_input = { λ trace. (trace ++ 0 ∷ 0 ∷ []) ∷ [] };

    ghost respects_eq = { Prim.search (hashing, rules) };

    fn hash<H: Hasher>(&self, state: &mut H) {
        let mut word = [0; 8];
        word[..6].copy_from_slice(&self.bytes);
        state.write(&word);
    }
}
