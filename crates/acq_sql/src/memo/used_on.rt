//! How many messages count on a day.

ghost use Rattle.std.specs.Prelude.{◌≡◌, ◌++◌, ◌∷◌, [], List, Some};
ghost use Rattle.acq_core.specs.declared.request.Request.{Request};
ghost use Rattle.acq_core.specs.Tables.{Tables, after};
ghost use Rattle.acq_sql.specs.Memos.{CountsUsed};

use acq_core::{Change, Request};
use day_totals::Day;

/// How many messages of all merchants count against the limit of a day.
#[derive(Clone, Copy)]
pub struct UsedOn {
    pub(crate) day: Day,
    pub(crate) count: u64,
}

impl UsedOn {
    /// How many count after a change.
    #[tactic(auto, using(crate::proofs::Memos::used_stays))]
    pub(crate) fn after(self, change: &Change) -> Option<UsedOn>
        ensures { (t : Tables) → CountsUsed (Some self) t.requests
            → CountsUsed result (after t change.now).requests }
    {
        match change {
            Change::AddRequest(request) => self.with(request),
            Change::Follow { request, .. } => self.with(request),
            Change::Reconciled { request, .. } => self.with(request),
            _ => Some(self),
        }
    }

    /// With one more request.
    #[tactic(auto, using(crate::proofs::Memos::used_pushed))]
    pub(crate) fn with(self, request: &Request) -> Option<UsedOn>
        ensures { (rows : List Request) → CountsUsed (Some self) rows
            → CountsUsed result (rows ++ request.now ∷ []) }
    {
        if !(request.admitted && request.day == self.day) {
            return Some(self);
        }
        Some(UsedOn {
            day: self.day,
            count: self.count.checked_add(1)?,
        })
    }
}
