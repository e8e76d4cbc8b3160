//! An issuer by a rule.

use acq_core::{MerchantId, Query, Reference, Verdict};
use acq_front::Issuer;
use std::alloc::Global;
use std::time::Duration;

/// Approves, declines or says nothing by the last digit of the amount, and of every fourth ten of
/// amounts later.
#[derive(Drop)]
pub struct RuleIssuer {
    /// What it was asked, and is still to be answered.
    asked: Vec<Asked>,
}

/// A query that is answered later.
#[derive(Clone, Copy, Drop)]
struct Asked {
    merchant: MerchantId,
    reference: Reference,
    /// How often it is still to be looked whether the answer is there.
    left: u64,
}

impl RuleIssuer {
    /// It was asked nothing yet.
    pub fn new(alloc: Global) -> RuleIssuer {
        RuleIssuer {
            asked: Vec::new(alloc),
        }
    }

    /// Whether it answers this later.
    pub fn is_late(query: &Query) -> bool {
        query.amount.number() / 10 % 4 == 0
    }

    /// What it says to this.
    pub fn verdict_for(query: &Query) -> Verdict {
        let verdict = match query.amount.number() % 10 {
            0..=5 => Verdict::approved(b"A1B2C3"),
            6 => Verdict::approved(b"D4E5F6"),
            7 => Verdict::declined(b"51"),
            8 => Verdict::declined(b"05"),
            _ => None,
        };
        verdict.unwrap_or(Verdict::NoAnswer)
    }
}

impl Asked {
    /// Whether it is this one.
    fn is_about(&self, query: &Query) -> bool {
        self.merchant == query.merchant && self.reference == query.reference
    }
}

impl Issuer for RuleIssuer {
    fn answer(&mut self, query: &Query) -> Verdict {
        self.asked.retain(|asked| !asked.is_about(query));
        RuleIssuer::verdict_for(query)
    }

    fn has_answer(&mut self, query: &Query) -> bool {
        for asked in self.asked.iter_mut() {
            if asked.is_about(query) {
                asked.left = asked.left.saturating_sub(1);
                return asked.left == 0;
            }
        }
        if !RuleIssuer::is_late(query) {
            return true;
        }
        let asked = Asked {
            merchant: query.merchant,
            reference: query.reference,
            left: query.amount.number() % 7 + 1,
        };
        self.asked.push(asked).is_err()
    }

    fn next_answer_within(&self) -> Option<Duration> {
        (!self.asked.is_empty()).then_some(Duration::ZERO)
    }
}
