//! When a hold may be completed.

ghost use Rattle.std.specs.Prelude.{◌≡◌};
ghost use Rattle.acq_core.specs.Decision.{is_open_at};
ghost use Rattle.acq_core.specs.Tables.{prior_of};

use acq_core::{Request, Status};
use acq_message::{Moment, Service};

/// Whether a request is a hold that is open at a moment.
pub fn is_open_at(moment: Moment, request: &Request) -> bool
    ensures { result ≡ is_open_at moment (prior_of request.now).hold_end }
{
    match request.hold_end {
        Some(hold_end) => {
            request.key.service == Service::Authorization
                && matches!(request.status, Status::Approved | Status::Lowered)
                && moment.seconds() <= hold_end
        }
        None => false,
    }
}
