//! Event lines in, and nothing out.

ghost use Rattle.std.specs.Prelude.{◌≡◌, ◌+◌, ◌++◌, ℕ, List, OnErr, OnOk};
ghost use Rattle.acq_core.specs.Tables.{tables_after};
ghost use Rattle.acq_book.specs.Promise.{CountsFault};
ghost use Rattle.acq_front.specs.Stops.{LeavesAll, left_of};
ghost use Rattle.acq_link.specs.Moves.{TakesAll};
ghost use Rattle.acq_commands.specs.DayReports.{Takes, TakesFirst};
ghost use Rattle.acq_faults.specs.Faults.{CountsStore, failed_reads, failed_writes};
ghost use Rattle.acq_commands.specs.Replay.{AfterReading};

use crate::group_size::GroupSize;
use crate::progress::{Progress, all_done};
use acq_book::{Book, BookFault};
use acq_core::Event;
use acq_faults::Fault;
use acq_host::Host;
use acq_link::Source;
use acq_out::read_events;
use std::alloc::Global;

/// Reads all event lines, and then takes the events in groups of this size, one after the other.
/// How many are done is told after each group.
pub fn take_events<B: Book + Drop, S: Source, P: Progress>(
    alloc: Global,
    host: &mut Host<B>,
    group: GroupSize,
    input: &mut S,
    progress: &mut P,
) -> Result<(), Fault>
    // What was read, what the book took of it, and what a stop may leave.
    ensures takes { B.is_honest host.new → B.is_open host.old → (text : List ℕ)
        × (S.received input.new ≡ S.received input.old ++ text)
        × Takes (record { left = left_of B.Book; group = group; old = host.old; new = host.new })
        text result }
    // Unless memory ran out or a read failed, the whole input was read.
    ensures whole { AfterReading result
        (TakesAll (S.remaining input.old) (S.received input.old) (S.received input.new)) }
    ensures stays_open { B.is_honest host.new → B.is_open host.old
        → OnOk result (B.is_open host.new) }
    // A fault of reading or of the store comes exactly where a call of it failed.
    ensures reads { S.failures input.new ≡ S.failures input.old + failed_reads result }
    ensures unwritten { failed_writes result ≡ 0 }
    ensures store { CountsStore result (B.failures host.old) (B.failures host.new) }
{
    let events = read_events(alloc, input)?;
    match take_each(host, group, events.as_slice(), progress) {
        Ok(()) => Ok(()),
        Err(fault) => Err(Fault::from(fault)),
    }
}

/// Takes events in order, in groups of this size.
pub(crate) fn take_each<B: Book + Drop, P: Progress>(
    host: &mut Host<B>,
    group: GroupSize,
    events: &[Event],
    progress: &mut P,
) -> Result<(), BookFault>
    ensures taken { B.is_honest host.new → B.is_open host.old → OnOk result
        (B.tables host.new ≡ tables_after (B.tables host.old) events.now) }
    ensures stop { B.is_honest host.new → B.is_open host.old → OnOk result
        (LeavesAll (left_of B.Book host.new) (B.tables host.old) events.now) }
    ensures stopped { B.is_honest host.new → B.is_open host.old → OnErr result
        (TakesFirst group (B.tables host.old) (left_of B.Book host.new) events.now) }
    ensures stays_open { B.is_honest host.new → B.is_open host.old
        → OnOk result (B.is_open host.new) }
    ensures was_honest { B.is_honest host.new → B.is_honest host.old }
    ensures store { CountsFault result (B.failures host.old) (B.failures host.new) }
{
    progress.begin(events.len());
    let mut taken = 0;
    while taken < events.len() {
        let end = group.end_behind(taken, events.len());
        let said = host.take_group(&events[taken..end])?;
        drop(said);
        all_done(progress, end - taken);
        taken = end;
    }
    Ok(())
}
