//! Whether the book in a file is what a host wrote.

ghost use Rattle.std.specs.Prelude.{◌≤◌, IfOk};

use crate::audit_options::AuditOptions;
use crate::machine::Machine;
use acq_book::Book;
use acq_core::Event;
use acq_faults::Fault;
use acq_link::{Sink, write_out};
use std::alloc::Global;
use std::hash::RandomState;

/// Writes `sound` if no row of the book in a file differs from the book that events make, and else
/// the first that does; returns the status, 0 or 1.
pub(crate) fn audit<B: Book + Drop, M: Machine<B> + Drop, K: Sink>(
    alloc: Global,
    keys: RandomState,
    machine: M,
    asked: &AuditOptions,
    output: &mut K,
) -> Result<u8, Fault>
    ensures { IfOk result (λ status. status ≤ 1) }
{
    let events = events_of(alloc, &machine, asked)?;
    match machine.audit_book(alloc, keys, asked.path.as_str(), events)? {
        None => {
            write_line(output, b"sound\n")?;
            Ok(0)
        }
        Some(difference) => {
            write_line(output, difference.as_slice())?;
            Ok(1)
        }
    }
}

/// The events of the file that is named, if one is.
fn events_of<B: Book + Drop, M: Machine<B>>(
    alloc: Global,
    machine: &M,
    asked: &AuditOptions,
) -> Result<Option<Vec<Event>>, Fault> {
    match &asked.events {
        Some(path) => Ok(Some(machine.read_events(alloc, path.as_str())?)),
        None => Ok(None),
    }
}

fn write_line<K: Sink>(output: &mut K, line: &[u8]) -> Result<(), Fault> {
    match write_out(output, line) {
        Ok(()) => Ok(()),
        Err(bytes) => Err(Fault::Write(bytes)),
    }
}
