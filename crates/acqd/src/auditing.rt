//! Audits of books.

ghost use Rattle.std.specs.Prelude.{IfErr};
ghost use Rattle.acq_program.specs.BookFaults.{IsOpening};

use acq_commands::TextSink;
use acq_core::Event;
use acq_faults::Fault;
use acq_link::MemorySink;
use acq_sql_audit::{AuditFault, Difference, audit_file};
use acq_sql_past::past_of_book;
use sqlite::{Alter, Connection};
use std::alloc::Global;
use std::fmt::Write;
use std::hash::RandomState;

/// The line of what differs first between the book in a database and the one that events make, if
/// something does. It is said of any store: a proof over that of this machine alone takes minutes.
pub(crate) fn audit_line<S: Alter + Drop>(
    alloc: Global,
    keys: RandomState,
    connection: Connection<S>,
    events: Option<Vec<Event>>,
) -> Result<Option<Vec<u8>>, Fault>
    ensures { IfErr result IsOpening }
{
    match audited(alloc, keys, connection, events) {
        Ok(None) => Ok(None),
        Ok(Some(difference)) => match line_of(alloc, &difference) {
            Some(line) => Ok(Some(line)),
            None => Err(Fault::Memory),
        },
        Err(AuditFault::Memory) => Err(Fault::Memory),
        Err(AuditFault::Store) => Err(Fault::Store),
        Err(AuditFault::NotABook) => Err(Fault::NotABook),
    }
}

/// Audits the book in a database by these events, or by events that are sought in its rows.
fn audited<S: Alter + Drop>(
    alloc: Global,
    keys: RandomState,
    mut connection: Connection<S>,
    events: Option<Vec<Event>>,
) -> Result<Option<Difference>, AuditFault> {
    let (limit, past) = past_of_book(alloc, keys, &mut connection, events)?;
    // What reads leaves no transaction open.
    if !connection.is_autocommit() {
        return Err(AuditFault::Store);
    }
    let events = past.events.as_slice();
    let (store, found) = audit_file(alloc, connection, limit, past.first_day, events);
    drop(store);
    found
}

/// The line of a difference, if there is memory for it.
fn line_of(alloc: Global, difference: &Difference) -> Option<Vec<u8>> {
    let mut text = MemorySink::new(alloc);
    writeln!(TextSink::new(&mut text), "{difference}").ok()?;
    Vec::from_slice(alloc, text.as_bytes()).ok()
}
