//! Who answers for cards.

ghost use Rattle.std.specs.Prelude.{◌≡◌, List, Option, None};
ghost use Rattle.acq_front.specs.Coming.{GivesNext};

use acq_core::{Query, Verdict};
use std::time::Duration;

/// Who is asked about a card's requests. It may answer later: whoever serves many terminals asks
/// whether the answer is there, and lets the others go on until it is; whoever serves one waits for
/// it.
pub trait Issuer {
    ghost use Rattle.acq_core.specs.declared.query.Query.{Query};
    ghost use Rattle.acq_message.specs.declared.verdict.Verdict.{Verdict};
    ghost use Rattle.acq_message.specs.declared.verdict.Verdict.TheVariants.{NoAnswer};

    // The verdicts that it will give, where they are known. Past them it gives no answer.
    ghost coming: { Self → Option (List Verdict) } = { λ _. None };

    // What it may say to a query, now or later.
    ghost may_say: { Self → Query → Verdict → Type 0 } = { λ _ _ _. Unit {0} };

    /// What it says to a query.
    fn answer(&mut self, query: &Query) -> Verdict
        ensures coming { GivesNext NoAnswer (coming self.old) (coming self.new) result }
        ensures said { may_say self.old query.now result }
        ensures later { (q : Query) (v : Verdict) → may_say self.new q v → may_say self.old q v };

    /// How long its answer to a query takes, as far as that is known before it is asked.
    fn takes(&self, _query: &Query) -> Duration {
        Duration::ZERO
    }

    /// Whether its answer to a query is there.
    fn has_answer(&mut self, _query: &Query) -> bool
        ensures coming { coming self.new ≡ coming self.old }
        ensures later { (q : Query) (v : Verdict) → may_say self.new q v → may_say self.old q v }
    {
        true
    }

    /// Its answer to a query isn't waited for any more.
    fn forget(&mut self, _query: &Query)
        ensures coming { coming self.new ≡ coming self.old }
        ensures later { (q : Query) (v : Verdict) → may_say self.new q v → may_say self.old q v }
    {}

    /// How long to wait at most for the next answer to what it was asked and didn't answer yet: no
    /// time, if one may be there, and `None` if nothing of that kind is waited for.
    fn next_answer_within(&self) -> Option<Duration> {
        None
    }
}
