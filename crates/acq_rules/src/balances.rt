//! When a day is in balance.

ghost use Rattle.std.specs.Prelude.{◌≡◌};
ghost use Rattle.acq_core.specs.Looking.{known_of};
ghost use Rattle.acq_core.specs.Outcome.{is_in_balance};

use acq_core::Looked;
use acq_message::{CheckedRequest, claimed_in};

/// Whether the claimed totals are the day's.
pub fn is_in_balance(looked: &Looked, request: &CheckedRequest) -> bool
    ensures { result ≡ is_in_balance (known_of looked.now) request.now }
{
    looked
        .totals
        .agrees(&claimed_in(&request.as_request().message))
}
