//! Names of terminals.

ghost use Rattle.std.specs.Prelude.{◌∷◌, ◌++◌, [], take, drop};
ghost use Rattle.std.proofs.Common.{rules};
ghost use Rattle.std.specs.Cmp.Rules.{hashing};
ghost use Rattle.std.specs.Prelude.{◌≡◌, true, SomeIff};
ghost use Rattle.acq_message.specs.Names.{is_terminal};

use iso_codec::all_printable;
use std::hash::{Hash, Hasher};
use std::marker::Model;

/// A terminal's name, as element 41 has it: eight bytes from 0x20 to 0x7E. The same name at two
/// merchants is two terminals. Contracts see it as the list of these bytes. Source: ISO 8583:1987,
/// card acceptor terminal identification.
#[derive(Clone, Copy, PartialEq, Eq)]
pub struct TerminalId {
    bytes: [u8; 8],
}

impl Model for TerminalId {
    ghost use Rattle.std.specs.Prelude.{ℕ, List, ◌≡◌, true};
    ghost use Rattle.acq_message.specs.Names.{is_terminal};

    ghost Value = { List ℕ };

    ghost view = { λ x. x.bytes };

    ghost invariant = { λ x. is_terminal x.bytes ≡ true };

    ghost inverse = { λ b. record { bytes = b } };
}

impl TerminalId {
    /// The terminal that these bytes name, or `None` where they aren't eight printable ones. It
    /// takes no memory.
    pub fn read(text: &[u8]) -> Option<TerminalId>
        ensures { SomeIff result (is_terminal text.now ≡ true) text.now }
    {
        match <[u8; 8]>::try_from(text) {
            Ok(bytes) if all_printable(&bytes) => Some(TerminalId { bytes }),
            _ => None,
        }
    }

    /// The eight bytes.
    pub fn to_bytes(&self) -> [u8; 8]
        ensures value { result ≡ self.now }
        ensures valid { is_terminal self.now ≡ true }
    {
        self.bytes
    }
}

impl Hash for TerminalId {
    // Whole words, which a hasher takes fastest.
    ghost hash_input = { λ name. name ∷ [] };

    ghost respects_eq = { Prim.search (hashing, rules) };

    fn hash<H: Hasher>(&self, state: &mut H) {
        state.write(&self.bytes);
    }
}
