//! An issuer that can't be reached.

use crate::issuer::Issuer;
use acq_core::{Query, Verdict};

/// An issuer that never answers.
#[derive(Drop)]
pub struct NoIssuer;

impl Issuer for NoIssuer {
    ghost use Rattle.acq_front.specs.Talk.{says_nothing};

    ghost may_say = { λ _. says_nothing };

    fn answer(&mut self, _query: &Query) -> Verdict {
        Verdict::NoAnswer
    }
}
