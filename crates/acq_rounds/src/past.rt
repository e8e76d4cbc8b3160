//! What connections that ended have had. Only proofs read it: it takes no memory, and its methods
//! do nothing at run time.

ghost use Rattle.std.specs.Prelude.{◌≡◌, ◌++◌, [], ◌∷◌, List};
ghost use Rattle.std.specs.Borrow.{ftrue};
ghost use Rattle.acq_rounds.specs.Acts.{Connection};

use crate::stage::Stage;
use acq_link::Transcript;
use std::marker::Model;

/// A connection as it ended.
#[derive(Clone, Copy, Drop)]
pub struct Last<'a> {
    pub number: u64,
    pub came: &'a Transcript,
    pub held: &'a [u8],
    pub went: &'a Transcript,
    pub unsent: &'a [u8],
    pub stage: &'a Stage,
}

/// What connections that ended have had.
#[derive(Drop)]
pub struct Past {
    pub ghost list: { List Connection },
}

impl Model for Past {
    ghost also_owns = { λ _. ftrue };
}

impl Past {
    ghost use Rattle.acq_rounds.specs.Past.{IsAfter, IsFresh, IsThen};

    /// None ended yet.
    pub fn new() -> Past
        ensures { IsFresh result }
    {
        Past {}
    }

    /// The list with one more at its end.
    pub fn after(&self, _last: &Last<'_>) -> Past
        ensures { IsAfter self.now _last.now result }
    {
        Past {}
    }

    /// The list with another one behind it.
    pub fn then(&self, _other: &Past) -> Past
        ensures { IsThen self.now _other.now result }
    {
        Past {}
    }
}
