//! What is so of every run of events, whoever brought them.

ghost use Rattle.std.specs.Prelude.{ℕ, List, Result};
ghost use Rattle.acq_core.specs.declared.event.Event.{Event};
ghost use Rattle.acq_core.specs.Events.{AreEvents};
ghost use Rattle.acq_core.specs.Pasts.{HasPast};
ghost use Rattle.acq_core.specs.Tables.{Tables, outputs, tables_after};
ghost use Rattle.acq_front.specs.declared.front_fault.FrontFault.{FrontFault};
ghost use Rattle.acq_serving.specs.Serving.{Connection, Serves};
ghost use Rattle.acq_front.specs.Stops.{left_of};
ghost use Rattle.acq_rounds.specs.Runs.{Did, Step, events_in};
ghost use Rattle.acq_history.specs.PartyHistory.{Party};
ghost use Rattle.acq_history.specs.Isolation.{IsSameInTwoRuns};
ghost use Rattle.acq_history.specs.QuietRepeats.{RepeatsAreQuiet};
ghost use Rattle.acq_headline.specs.Headline.{IsAlone, KeptItsPostings};
ghost use Rattle.acq_headline.specs.Clearing.{KeptItsClearing};
ghost use Rattle.acq_headline.specs.ClearedAsTold.{IsClearedAsTold};
ghost use Rattle.acq_headline.specs.OnlyWhatMay.{AcceptsOnlyWhatMay};
ghost use Rattle.acq_headline.specs.WithinHolds.{CapturesWithinHolds};
ghost use Rattle.acq_headline.specs.ServedAlone.{ServesAlone};

use acq_book::Book;
use acq_front::{Clock, Issuer};
use acq_host::Host;

/// Of whatever events tables are led on by, each merchant, and nobody, gets what its own events
/// alone give.
pub fn runs_are_alone()
    ensures { (t : Tables) (events : List Event)
        → IsAlone t events (outputs t events) (tables_after t events) }
{}

/// Nothing is posted or reversed twice, and a closed day stays as it is, whatever events the tables
/// of a book are led on by.
pub fn postings_are_kept()
    ensures { (t : Tables) (events : List Event) → HasPast t
        → KeptItsPostings t (tables_after t events) }
{}

/// What clearing gave of a day it gives again, and a clearing file sums up to the totals, whatever
/// events the tables of a book are led on by.
pub fn clearing_is_kept()
    ensures { (t : Tables) (events : List Event) → HasPast t → HasPast (tables_after t events)
        → KeptItsClearing t (tables_after t events) }
{}

/// Of whatever events the tables of a book are led on by: what was told is what clears, only what
/// may be was asked about, completed or reversed, and no more was captured than was held.
pub fn told_is_kept()
    ensures cleared { (t : Tables) (events : List Event) → AreEvents events
        → IsClearedAsTold t events (outputs t events) (tables_after t events) }
    ensures accepted { (t : Tables) (events : List Event) → AreEvents events
        → AcceptsOnlyWhatMay t events (outputs t events) }
    ensures captured { (t : Tables) (events : List Event) → AreEvents events
        → CapturesWithinHolds t events (outputs t events) (tables_after t events) }
{}

/// A connection that is served as `serve` promises, by an issuer that may say this, gave each
/// merchant, and nobody, what its own events alone give, in the book that it left.
pub fn connections_are_alone<B: Book + Drop, I: Issuer>(left: &Host<B>, issuer: &I)
    ensures { (old : Tables) (c : Connection) (r : Result (Unit {0}) FrontFault)
        → Serves (I.may_say issuer.now) old (left_of B.Book left.now) c r
        → ServesAlone old (left_of B.Book left.now) c r }
{}

/// Of all that a host did in the steps of a run over many connections, those of terminals and those
/// of control connections, by a clock and an issuer that may give and say this, each merchant, and
/// nobody, gets what its own events alone give.
pub fn merchants_are_alone<C: Clock, I: Issuer>(clock: &C, issuer: &I)
    ensures { (old new : Tables) (steps : List Step)
        → Did (C.may_give clock.now) (I.may_say issuer.now) old new steps
        → IsAlone old (events_in steps) (outputs old (events_in steps)) new }
{}

/// A repeat changes nothing of what its merchant gets of all else: where any of a merchant's
/// requests whose keys are recorded are left out of the events that `Host::run` takes, each other
/// event of the merchant gets the same. So a terminal may repeat a request as often as it likes.
pub fn repeats_are_quiet()
    ensures { (m : List ℕ) → RepeatsAreQuiet m }
{}

/// Two runs of `Host::run` over new books that began alike, in which a party's own events and the
/// shared ones are the same and in the same order, say the same to the party, whatever all others
/// send in each.
pub fn same_in_two_runs()
    ensures { (party : Party) → IsSameInTwoRuns party }
{}
