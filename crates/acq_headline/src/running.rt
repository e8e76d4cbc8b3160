//! A run of events, and what each merchant has of it.

ghost use Rattle.std.specs.Prelude.{IfOk, IfErr, take};
ghost use Rattle.acq_core.specs.Events.{AreEvents};
ghost use Rattle.acq_headline.specs.Clearing.{KeptItsClearing};
ghost use Rattle.acq_headline.specs.Headline.{IsAlone, KeptItsPostings};
ghost use Rattle.acq_headline.specs.ClearedAsTold.{IsClearedAsTold};
ghost use Rattle.acq_headline.specs.OnlyWhatMay.{AcceptsOnlyWhatMay};
ghost use Rattle.acq_headline.specs.WithinHolds.{CapturesWithinHolds};

use acq_book::Book;
use acq_core::{Event, Output};
use acq_host::{Host, RunFault};
use acq_soundness::every_event;

/// Takes events in order, to the last or to the first fault, and returns what the host says to
/// each: this is `Host::run`, which says what goes out and which tables are left.
pub fn run<B: Book + Drop>(host: &mut Host<B>, events: &[Event]) -> Result<Vec<Output>, RunFault>
    // Each party got what its own events alone give.
    ensures alone { B.is_honest host.new → B.is_open host.old → IfOk result (λ said.
        IsAlone (B.tables host.old) events.now said.items (B.tables host.new)) }
    ensures fault_alone { B.is_open host.old → B.is_open host.new → IfErr result (λ fault.
        IsAlone (B.tables host.old) (take fault.at events.now) fault.outputs.items
        (B.tables host.new)) }
    // Nothing is posted or reversed twice, and closed days stay as they are.
    ensures postings { B.is_open host.old → B.is_open host.new
        → KeptItsPostings (B.tables host.old) (B.tables host.new) }
    // What clearing gave of a day it gives again, and a clearing file sums up to the totals.
    ensures clearing { B.is_open host.old → B.is_open host.new
        → KeptItsClearing (B.tables host.old) (B.tables host.new) }
    // What was told is what clears: of each reply with 00 that moves money one record of its day's
    // clearing file, and no other record.
    ensures cleared { B.is_honest host.new → B.is_open host.old → IfOk result (λ said.
        IsClearedAsTold (B.tables host.old) events.now said.items (B.tables host.new)) }
    ensures fault_cleared { B.is_open host.old → B.is_open host.new → IfErr result (λ fault.
        IsClearedAsTold (B.tables host.old) (take fault.at events.now) fault.outputs.items
        (B.tables host.new)) }
    // Only what may be was asked about, completed or reversed.
    ensures accepted { B.is_honest host.new → B.is_open host.old → IfOk result (λ said.
        AcceptsOnlyWhatMay (B.tables host.old) events.now said.items) }
    ensures fault_accepted { B.is_open host.old → B.is_open host.new → IfErr result (λ fault.
        AcceptsOnlyWhatMay (B.tables host.old) (take fault.at events.now) fault.outputs.items) }
    // No more was captured than was held.
    ensures captured { B.is_honest host.new → B.is_open host.old → IfOk result (λ said.
        CapturesWithinHolds (B.tables host.old) events.now said.items (B.tables host.new)) }
    ensures fault_captured { B.is_open host.old → B.is_open host.new → IfErr result (λ fault.
        CapturesWithinHolds (B.tables host.old) (take fault.at events.now) fault.outputs.items
        (B.tables host.new)) }
{
    every_event_of(events);
    host.run(events)
}

/// All events are such as the laws take them.
fn every_event_of(events: &[Event])
    ensures { AreEvents events.now }
{
    for event in events {
        every_event(event);
    }
}
