//! What went over a link so far. Only proofs read it: it takes no memory, and its methods do
//! nothing at run time.

ghost use Rattle.std.specs.Prelude.{ℕ, List};
ghost use Rattle.std.specs.Borrow.{ftrue};

use crate::call::Call;
use std::marker::Model;

/// The bytes that went over a link so far, and how many calls failed.
#[derive(Drop)]
pub struct Transcript {
    pub ghost bytes: { List ℕ },
    pub ghost failures: { ℕ },
}

impl Model for Transcript {
    ghost also_owns = { λ _. ftrue };
}

impl Transcript {
    ghost use Rattle.acq_link.specs.Transcript.{IsFresh, IsAfter};

    /// No byte, and no failed call.
    pub fn new() -> Transcript
        ensures { IsFresh result }
    {
        Transcript {}
    }

    /// The transcript with one more call at its end.
    pub fn after(&self, _call: &Call<'_>) -> Transcript
        ensures { IsAfter self.now _call.now result }
    {
        Transcript {}
    }
}
