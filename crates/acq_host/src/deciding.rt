//! What is decided on an event, and what it makes of a book.

ghost use Rattle.std.specs.Prelude.{◌≡◌, is_ok, IfOk, IfSome};
ghost use Rattle.acq_core.specs.Arrivals.{arrival_of, merchant_named};
ghost use Rattle.acq_core.specs.Changes.{change_for};
ghost use Rattle.acq_core.specs.Looking.{known_of};
ghost use Rattle.acq_core.specs.Outcome.{outcome, output_of};
ghost use Rattle.acq_core.specs.Tables.{after_any, known_in, step_output};
ghost use Rattle.acq_core.specs.Pasts.{HasPast};
ghost use Rattle.acq_book.specs.Fits.{Fits};
ghost use Rattle.acq_book.specs.Calls.{GivesWithin, Lives, Looks, Makes, MakesWithin};
ghost use Rattle.acq_book.specs.Promise.{CountsFault};
ghost use Rattle.acq_reasons.specs.Reasons.{reason_for};
ghost use Rattle.acq_host.specs.Runs.{IsDecided};

use crate::looking_up::look_up;
use acq_book::{Book, BookFault};
use acq_core::{Arrival, Change, Event, Looked, Output};
use acq_reasons::{Reason, reason_for};
use std::alloc::Global;

/// Reads an event, looks up what it needs, and returns what the host says to it, what changes, and
/// why it gets another code than 00, if it does.
pub(crate) fn decide<B: Book>(
    alloc: Global,
    book: &mut B,
    event: &Event,
) -> Result<(Output, Option<Change>, Option<Reason>), BookFault>
    ensures output { B.is_open book.new → IfOk result (λ x.
        x.0 ≡ step_output (B.tables book.old) (arrival_of event.now)) }
    ensures change { B.is_open book.new → IfOk result (λ x. let a = arrival_of event.now in
        x.1 ≡ change_for (known_in (B.tables book.old) a) a) }
    ensures reason { B.is_open book.new → IfOk result (λ x. let a = arrival_of event.now in
        x.2 ≡ reason_for (known_in (B.tables book.old) a) a) }
    ensures looks { Looks B.Book book.old book.new (is_ok result) }
    ensures within { let a = arrival_of event.now in
        GivesWithin B.Book book.old book.new result (IsDecided (B.tables book.old) a) }
    ensures store { CountsFault result (B.failures book.old) (B.failures book.new) }
{
    let arrival = Arrival::of(alloc, event)?;
    decide_arrival(alloc, book, &arrival)
}

/// Looks up what an event needs that was read, and returns the same of it.
#[tactic(auto, using(crate::proofs::Chains::looks_more))]
fn decide_arrival<B: Book>(
    alloc: Global,
    book: &mut B,
    arrival: &Arrival,
) -> Result<(Output, Option<Change>, Option<Reason>), BookFault>
    ensures output { B.is_open book.new → IfOk result (λ x.
        x.0 ≡ step_output (B.tables book.old) arrival.now) }
    ensures change { B.is_open book.new → IfOk result (λ x.
        x.1 ≡ change_for (known_in (B.tables book.old) arrival.now) arrival.now) }
    ensures reason { B.is_open book.new → IfOk result (λ x.
        x.2 ≡ reason_for (known_in (B.tables book.old) arrival.now) arrival.now) }
    ensures looks { Looks B.Book book.old book.new (is_ok result) }
    ensures within { GivesWithin B.Book book.old book.new result
        (IsDecided (B.tables book.old) arrival.now) }
    ensures store { CountsFault result (B.failures book.old) (B.failures book.new) }
{
    let looked = look_up(book, arrival)?;
    let decided = decide_over(alloc, &looked, arrival);
    drop(looked);
    decided
}

/// The same, over what was looked up. It is borrowed, since a proof of what lets it go takes a
/// minute at each place that may.
fn decide_over(
    alloc: Global,
    looked: &Looked,
    arrival: &Arrival,
) -> Result<(Output, Option<Change>, Option<Reason>), BookFault>
    ensures output { IfOk result (λ x. x.0
        ≡ output_of (merchant_named arrival.now) (outcome (known_of looked.now) arrival.now)) }
    ensures change { IfOk result (λ x. x.1 ≡ change_for (known_of looked.now) arrival.now) }
    ensures reason { IfOk result (λ x. x.2 ≡ reason_for (known_of looked.now) arrival.now) }
    ensures store { CountsFault result 0 0 }
{
    // The reason is found first: nothing of it has to be let go if memory runs out behind it.
    let reason = reason_for(alloc, looked, arrival)?;
    let (output, change) = acq_deciding::decide_arrival(alloc, looked, arrival)?;
    Ok((output, change, reason))
}

/// Makes a change, if there is one. It is lent, so that the caller lets it go, once.
pub(crate) fn apply<B: Book>(book: &mut B, change: &Option<Change>) -> Result<(), BookFault>
    requires fits { Lives B.Book book.old → IfSome change.now (Fits (B.tables book.old)) }
    requires past { Lives B.Book book.old → HasPast (after_any (B.tables book.old) change.now) }
    ensures makes { Makes B.Book
        book.old book.new (is_ok result) (after_any (B.tables book.old) change.now) }
    ensures within { MakesWithin B.Book
        book.old book.new (is_ok result) (after_any (B.tables book.old) change.now) }
    ensures store { CountsFault result (B.failures book.old) (B.failures book.new) }
{
    match change {
        Some(change) => book.apply(change),
        None => Ok(()),
    }
}
