//! Issuers that are asked over a gateway.

use crate::gateway_desk::GatewayDesk;
use acq_core::{Query, Verdict};
use acq_front::Issuer;
use std::time::Duration;

/// Issuers that are asked over a gateway: what they say comes to its desk. Where no gateway is
/// connected there is no answer, behind the time for which one is waited for.
#[derive(Drop)]
pub struct GatewayIssuer {
    desk: GatewayDesk,
}

impl GatewayIssuer {
    /// By what lies at this desk.
    pub fn new(desk: GatewayDesk) -> GatewayIssuer {
        GatewayIssuer { desk }
    }
}

impl Issuer for GatewayIssuer {
    fn answer(&mut self, query: &Query) -> Verdict {
        match self.desk.waiting() {
            Some(mut waiting) => waiting.take(query),
            None => Verdict::NoAnswer,
        }
    }

    fn takes(&self, _query: &Query) -> Duration {
        match self.desk.waiting() {
            Some(waiting) => waiting.takes(),
            None => Duration::ZERO,
        }
    }

    fn has_answer(&mut self, query: &Query) -> bool {
        match self.desk.waiting() {
            Some(mut waiting) => waiting.has_answer(query),
            None => true,
        }
    }

    fn forget(&mut self, query: &Query) {
        if let Some(mut waiting) = self.desk.waiting() {
            let _ = waiting.take(query);
        }
    }

    fn next_answer_within(&self) -> Option<Duration> {
        let waiting = self.desk.waiting()?;
        waiting.next_within()
    }
}
