//! An issuer whose answers take their time.

ghost use Rattle.std.specs.Prelude.{◌≡◌};
ghost use Rattle.acq_core.specs.declared.query.Query.{Query};
ghost use Rattle.acq_message.specs.declared.verdict.Verdict.{Verdict};
ghost use Rattle.acq_tcp.specs.Issuers.{asked_of, says_of};

use crate::round_time::RoundTime;
use crate::time_limits::{between, has_come, shorter};
use acq_core::{MerchantId, Query, Reference, Verdict};
use acq_front::Issuer;
use std::alloc::Global;
use std::time::{Duration, Instant};

/// An issuer whose answers take their time, by the times of rounds or by its own word, and that
/// gives none where it takes longer than it may. Where the system doesn't tell the time, or memory
/// runs out, it answers at once.
#[derive(Drop)]
pub(crate) struct TimedIssuer<'i, 'r, I> {
    issuer: &'i mut I,
    time: &'r RoundTime,
    /// How long an answer may take.
    limit: Option<Duration>,
    /// What it was asked and didn't answer yet.
    asked: Vec<Asked>,
}

/// A query that isn't answered yet.
#[derive(Clone, Copy, Drop)]
struct Asked {
    merchant: MerchantId,
    reference: Reference,
    /// When its answer is there, if not before, unless that is never.
    due: Option<Instant>,
    /// Whether it gets none, since that would take longer than it may.
    is_late: bool,
}

impl Asked {
    /// Whether it is this one.
    fn is_about(&self, query: &Query) -> bool {
        self.merchant == query.merchant && self.reference == query.reference
    }
}

impl<'i, 'r, I: Issuer> TimedIssuer<'i, 'r, I> {
    /// It was asked nothing yet.
    pub(crate) fn new(
        alloc: Global,
        issuer: &'i mut I,
        time: &'r RoundTime,
        limit: Option<Duration>,
    ) -> TimedIssuer<'i, 'r, I>
        ensures { asked_of I.Issuer result ≡ issuer.old }
    {
        TimedIssuer {
            issuer,
            time,
            limit,
            asked: Vec::new(alloc),
        }
    }

    /// What was asked about a query, if it wasn't answered yet.
    fn asked(&self, query: &Query) -> Option<&Asked> {
        self.asked.iter().find(|asked| asked.is_about(query))
    }

    /// Notes when the answer to a query is there, unless it is there at once. Returns whether it
    /// is.
    fn ask(&mut self, query: &Query) -> bool
        ensures { (q : Query) (v : Verdict) → says_of I.Issuer self.new q v
            → says_of I.Issuer self.old q v }
    {
        let takes = self.issuer.takes(query);
        if takes.is_zero() {
            return true;
        }
        let Some(now) = self.time.get() else {
            return true;
        };
        let within = self.limit.map_or(takes, |limit| limit.min(takes));
        let asked = Asked {
            merchant: query.merchant,
            reference: query.reference,
            due: now.checked_add(within),
            is_late: within < takes,
        };
        self.asked.push(asked).is_err() || self.issuer.has_answer(query)
    }
}

impl<I: Issuer> Issuer for TimedIssuer<'_, '_, I> {
    ghost may_say = { says_of I.Issuer };

    fn answer(&mut self, query: &Query) -> Verdict {
        let is_late = self
            .asked
            .iter()
            .any(|asked| asked.is_late && asked.is_about(query));
        self.asked.retain(|asked| !asked.is_about(query));
        if is_late && !self.issuer.has_answer(query) {
            self.issuer.forget(query);
            Verdict::NoAnswer
        } else {
            self.issuer.answer(query)
        }
    }

    fn has_answer(&mut self, query: &Query) -> bool {
        let due = match self.asked(query) {
            Some(asked) => asked.due,
            None => return self.ask(query),
        };
        has_come(due, self.time.get()) || self.issuer.has_answer(query)
    }

    fn next_answer_within(&self) -> Option<Duration> {
        let now = self.time.get();
        let soonest = self.issuer.next_answer_within();
        self.asked.iter().fold(soonest, |soonest, asked| {
            shorter(soonest, between(now, asked.due))
        })
    }
}
