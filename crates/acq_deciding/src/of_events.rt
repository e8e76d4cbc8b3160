//! The decision on one event.

ghost use Rattle.std.specs.Prelude.{◌≡◌, IfOk};
ghost use Rattle.acq_core.specs.Arrivals.{arrival_of, merchant_named};
ghost use Rattle.acq_core.specs.Changes.{change_for};
ghost use Rattle.acq_core.specs.Known.{wanted_by};
ghost use Rattle.acq_core.specs.Looking.{known_of};
ghost use Rattle.acq_core.specs.Outcome.{outcome, output_of};

use crate::of_arrivals::decide_arrival;
use acq_core::{Arrival, Change, Event, Looked, Output, Wanted};
use acq_rules::wanted_by;
use day_totals::Day;
use std::alloc::{AllocError, Global};

/// What has to be looked up for an event on a business day.
pub fn wanted(alloc: Global, event: &Event, today: Day) -> Result<Wanted, AllocError>
    ensures { IfOk result (λ wanted. wanted ≡ wanted_by today (arrival_of event.now)) }
{
    Ok(wanted_by(today, &Arrival::of(alloc, event)?))
}

/// What the host says to an event, over what was looked up for it, and what changes. An `Err` says
/// that memory was wanting, and nothing else.
pub fn decide(
    alloc: Global,
    looked: &Looked,
    event: &Event,
) -> Result<(Output, Option<Change>), AllocError>
    ensures output { IfOk result (λ x. let a = arrival_of event.now in
        x.0 ≡ output_of (merchant_named a) (outcome (known_of looked.now) a)) }
    ensures change { IfOk result (λ x.
        x.1 ≡ change_for (known_of looked.now) (arrival_of event.now)) }
{
    decide_arrival(alloc, looked, &Arrival::of(alloc, event)?)
}
