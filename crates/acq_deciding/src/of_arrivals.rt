//! The decision on what came.

ghost use Rattle.std.specs.Prelude.{◌≡◌, IfOk};
ghost use Rattle.acq_core.specs.Arrivals.{merchant_named};
ghost use Rattle.acq_core.specs.Changes.{change_for};
ghost use Rattle.acq_core.specs.Looking.{known_of};
ghost use Rattle.acq_core.specs.Outcome.{outcome, output_of};

use crate::deciding::decision;
use crate::effects::carry_out;
use acq_core::{Arrival, Change, Looked, Output};
use std::alloc::{AllocError, Global};

/// What the host says to what came, over what was looked up for it, and what changes. All memory of
/// both is taken here. An `Err` says that memory was wanting, and nothing else.
pub fn decide_arrival(
    alloc: Global,
    looked: &Looked,
    arrival: &Arrival,
) -> Result<(Output, Option<Change>), AllocError>
    ensures output { IfOk result (λ x. x.0
        ≡ output_of (merchant_named arrival.now) (outcome (known_of looked.now) arrival.now)) }
    ensures change { IfOk result (λ x. x.1 ≡ change_for (known_of looked.now) arrival.now) }
{
    let decision = decision(alloc, looked, arrival)?;
    carry_out(alloc, looked, arrival.merchant(), decision)
}
