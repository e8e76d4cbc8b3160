//! Which requests may wait.

ghost use Rattle.std.specs.Prelude.{◌≡◌, ◌++◌, ◌∷◌, [], ℕ, List, Option};
ghost use Rattle.iso_codec.specs.Message.{IsoMessage};
ghost use Rattle.acq_message.specs.declared.request_key.RequestKey.{RequestKey};
ghost use Rattle.acq_core.specs.declared.request.Request.{Request};
ghost use Rattle.acq_core.specs.Tables.{Tables, after, answered_row, is_pending, with_changed};
ghost use Rattle.acq_sql.specs.Memos.{WaitsNoOther};

use acq_core::{Change, Request, RequestKey, Status};

/// Which of all recorded requests may wait for their issuer's answer.
#[derive(Clone, Copy)]
pub enum MayWait {
    Any,
    /// No other than the one with this key.
    Only(RequestKey),
    None,
}

impl MayWait {
    /// Which may wait after a change.
    pub(crate) fn after(self, change: &Change) -> MayWait
        ensures { (t : Tables) → WaitsNoOther self t.requests
            → WaitsNoOther result (after t change.now).requests }
    {
        match change {
            Change::AddRequest(request) => self.with(request),
            Change::Answered { key, status, .. } => self.answered(key, *status),
            Change::Follow {
                request,
                remains,
                ..
            } => self.changed(remains.status).with(request),
            Change::Reconciled { request, .. } => self.with(request),
            _ => self,
        }
    }

    /// With one more request.
    pub(crate) fn with(self, request: &Request) -> MayWait
        ensures { (rows : List Request) → WaitsNoOther self rows
            → WaitsNoOther result (rows ++ request.now ∷ []) }
    {
        if !is_waiting(request.status) {
            return self;
        }
        match self {
            MayWait::None => MayWait::Only(request.key),
            _ => MayWait::Any,
        }
    }

    /// Where the one with this key was answered.
    fn answered(self, key: &RequestKey, status: Status) -> MayWait
        ensures { (rows : List Request) (reply : IsoMessage) (hold_end : Option ℕ)
            → WaitsNoOther self rows
            → WaitsNoOther result (with_changed key.now (answered_row status reply hold_end) rows) }
    {
        if is_waiting(status) {
            return MayWait::Any;
        }
        match self {
            MayWait::Only(waiting) if *key == waiting => MayWait::None,
            other => other,
        }
    }

    /// Where one has this status now.
    fn changed(self, status: Status) -> MayWait
        ensures { (rows : List Request) (key : RequestKey) (change : Request → Request)
            → ((row : Request) → (change row).status ≡ status)
            → WaitsNoOther self rows → WaitsNoOther result (with_changed key change rows) }
    {
        if is_waiting(status) {
            MayWait::Any
        } else {
            self
        }
    }
}

/// Whether a request with this status waits.
fn is_waiting(status: Status) -> bool
    ensures { result ≡ is_pending status }
{
    matches!(status, Status::Pending)
}
