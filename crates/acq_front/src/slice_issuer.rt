//! An issuer over memory.

ghost use Rattle.std.specs.Prelude.{◌≡◌};
ghost use Rattle.acq_front.specs.Supplies.{verdicts_of};

use crate::issuer::Issuer;
use acq_core::{Query, Verdict};

/// An issuer that gives these verdicts, whatever it is asked, and then no answer.
#[derive(Drop)]
pub struct SliceIssuer<'a> {
    verdicts: &'a [Verdict],
}

impl<'a> SliceIssuer<'a> {
    /// An issuer that gives these verdicts.
    pub fn new(verdicts: &'a [Verdict]) -> SliceIssuer<'a>
        ensures { verdicts_of result ≡ verdicts.entry.now }
    {
        SliceIssuer { verdicts }
    }
}

impl Issuer for SliceIssuer<'_> {
    ghost use Rattle.std.specs.Prelude.{Some};
    ghost use Rattle.acq_front.specs.Supplies.{verdicts_of};

    ghost coming = { λ i. Some (verdicts_of i) };

    fn answer(&mut self, _query: &Query) -> Verdict {
        if let Some((first, later)) = self.verdicts.split_first() {
            self.verdicts = later;
            return *first;
        }
        Verdict::NoAnswer
    }
}
