//! Event lines in, output lines out.

ghost use Rattle.std.specs.Prelude.{◌≡◌, ◌⊎◌, ◌+◌, ◌++◌, ℕ, List, true, false};
ghost use Rattle.std.specs.Prelude.{IfErr, OnOk};
ghost use Rattle.std.specs.List.{flat_map};
ghost use Rattle.acq_core.specs.Tables.{outputs, tables_after};
ghost use Rattle.acq_book.specs.Calls.{Makes};
ghost use Rattle.acq_book.specs.declared.book_fault.BookFault.{BookFault};
ghost use Rattle.acq_front.specs.Stops.{LeavesAll, left_of};
ghost use Rattle.acq_out.specs.Faults as outs;
ghost use Rattle.acq_out.specs.OutputLines.{line_of};
ghost use Rattle.acq_link.specs.Moves.{TakesAll};
ghost use Rattle.acq_out.specs.declared.out_fault.OutFault.{OutFault};
ghost use Rattle.acq_faults.specs.Faults.{CountsStore, failed_reads, failed_writes};
ghost use Rattle.acq_faults.specs.Faults.{of_book, of_out};
ghost use Rattle.acq_commands.specs.Replay.{AfterReading, Replays, Stops, StopsEvents, StopsLines};
ghost use Rattle.acq_commands.specs.Replay.{lines};

use crate::group_size::GroupSize;
use crate::progress::Progress;
use acq_book::Book;
use acq_core::{Event, Output};
use acq_faults::Fault;
use acq_host::Host;
use acq_link::{Sink, Source};
use acq_out::{OutFault, read_events, write_output};
use std::alloc::Global;

/// Reads all event lines, and then takes the events in groups of this size, one after the other,
/// and writes the lines of what the host says to a group before the next. What was written is never
/// ahead of the book, and never behind it by more than one group. How many are done is told after
/// each line.
pub fn replay<B: Book + Drop, S: Source, K: Sink, P: Progress>(
    alloc: Global,
    host: &mut Host<B>,
    group: GroupSize,
    input: &mut S,
    output: &mut K,
    progress: &mut P,
) -> Result<(), Fault>
    // What was read, what was written of it, what the book took, and what a stop may leave.
    ensures replays { B.is_honest host.new → B.is_open host.old → (text : List ℕ)
        × (S.received input.new ≡ S.received input.old ++ text)
        × Replays
        (record { left = left_of B.Book; group = group; old = host.old; new = host.new }) text
        (record { before = K.sent output.old; after = K.sent output.new }) result }
    // Unless memory ran out or a read failed, the whole input was read.
    ensures whole { AfterReading result
        (TakesAll (S.remaining input.old) (S.received input.old) (S.received input.new)) }
    // Before it was, no event was taken, and nothing went out.
    ensures reads_first { TakesAll
        (S.remaining input.old) (S.received input.old) (S.received input.new)
        ⊎ ((host.new ≡ host.old) × (K.sent output.new ≡ K.sent output.old)) }
    // A fault of reading, writing or the store comes exactly where a call of it failed.
    ensures reads { S.failures input.new ≡ S.failures input.old + failed_reads result }
    ensures writes { K.failures output.new ≡ K.failures output.old + failed_writes result }
    ensures store { CountsStore result (B.failures host.old) (B.failures host.new) }
{
    let events = read_events(alloc, input)?;
    take_all(alloc, host, group, events.as_slice(), output, progress)
}

/// Takes events in order, in groups of this size, and writes the lines of what the host says to a
/// group before the next.
fn take_all<B: Book + Drop, K: Sink, P: Progress>(
    alloc: Global,
    host: &mut Host<B>,
    group: GroupSize,
    events: &[Event],
    output: &mut K,
    progress: &mut P,
) -> Result<(), Fault>
    ensures lines { B.is_honest host.new → B.is_open host.old → OnOk result
        (K.sent output.new ≡ K.sent output.old ++ lines (B.tables host.old) events.now) }
    ensures tables { B.is_honest host.new → B.is_open host.old → OnOk result
        (B.tables host.new ≡ tables_after (B.tables host.old) events.now) }
    ensures stop { B.is_honest host.new → B.is_open host.old → OnOk result
        (LeavesAll (left_of B.Book host.new) (B.tables host.old) events.now) }
    ensures stops { B.is_honest host.new → B.is_open host.old → IfErr result (λ fault. Stops
        (record { left = left_of B.Book; group = group; old = host.old; new = host.new })
        events.now (record { before = K.sent output.old; after = K.sent output.new }) fault) }
    ensures which { IfErr result StopsEvents }
    ensures writes { K.failures output.new ≡ K.failures output.old + failed_writes result }
    ensures store { CountsStore result (B.failures host.old) (B.failures host.new) }
{
    progress.begin(events.len());
    let mut taken = 0;
    while taken < events.len() {
        let end = group.end_behind(taken, events.len());
        take_next(alloc, host, &events[taken..end], output, progress)?;
        taken = end;
    }
    Ok(())
}

/// Takes a group of events, and writes the lines of what the host says to them.
fn take_next<B: Book + Drop, K: Sink, P: Progress>(
    alloc: Global,
    host: &mut Host<B>,
    group: &[Event],
    output: &mut K,
    progress: &mut P,
) -> Result<(), Fault>
    ensures made { OnOk result (Makes B.Book
        host.old host.new true (tables_after (B.tables host.old) group.now)) }
    ensures sent { B.is_honest host.new → B.is_open host.old → OnOk result
        (K.sent output.new ≡ K.sent output.old ++ lines (B.tables host.old) group.now) }
    // With a fault of the book it was not taken, with one of its lines it was.
    ensures fault { IfErr result (λ fault.
        ((f : BookFault) × (fault ≡ of_book f)
        × Makes B.Book host.old host.new false (tables_after (B.tables host.old) group.now)
        × (K.sent output.new ≡ K.sent output.old))
        ⊎ ((f : OutFault) × (fault ≡ of_out f)
        × Makes B.Book host.old host.new true (tables_after (B.tables host.old) group.now)
        × (B.is_honest host.new → B.is_open host.old → StopsLines
        (outputs (B.tables host.old) group.now) (K.sent output.old) (K.sent output.new) f))) }
    ensures which { IfErr result StopsEvents }
    ensures writes { K.failures output.new ≡ K.failures output.old + failed_writes result }
    ensures store { CountsStore result (B.failures host.old) (B.failures host.new) }
{
    let said = host.take_group(group)?;
    let written = write_lines(alloc, said.as_slice(), output, progress);
    drop(said);
    match written {
        Ok(()) => Ok(()),
        Err(fault) => Err(Fault::from(fault)),
    }
}

/// Writes the lines of what was said to events, one after the other, and tells after each that its
/// event is done.
fn write_lines<K: Sink, P: Progress>(
    alloc: Global,
    said: &[Output],
    output: &mut K,
    progress: &mut P,
) -> Result<(), OutFault>
    ensures sent { OnOk result
        (K.sent output.new ≡ K.sent output.old ++ flat_map line_of said.now) }
    ensures stopped { IfErr result
        (StopsLines said.now (K.sent output.old) (K.sent output.new)) }
    ensures writes { K.failures output.new ≡ K.failures output.old + outs.failed_writes result }
{
    for one in said.iter() {
        write_output(alloc, one, output)?;
        progress.done();
    }
    Ok(())
}
