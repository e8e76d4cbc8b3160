//! Events that a book takes.

ghost use Rattle.std.specs.Prelude.{◌≡◌, IfOk};
ghost use Rattle.acq_core.specs.Pasts.{HasPast};
ghost use Rattle.acq_core.specs.Tables.{tables_after};

use acq_book::{Book, BookFault};
use acq_core::Event;
use acq_host::Host;
use std::alloc::Global;

/// The book once a host has taken these events over it. What the host says to them is let go.
pub(crate) fn after_events<B: Book + Drop>(
    alloc: Global,
    book: B,
    events: &[Event],
) -> Result<B, BookFault>
    requires past { B.is_open book → HasPast (B.tables book) }
    ensures was_honest { IfOk result (λ after. B.is_honest after → B.is_honest book) }
    ensures stays { IfOk result (λ after. B.is_honest after → B.is_open book → B.is_open after) }
    ensures tables { IfOk result (λ after. B.is_honest after → B.is_open book
        → B.tables after ≡ tables_after (B.tables book) events.now) }
{
    let mut host = Host::new(alloc, book);
    for event in events {
        host.take(event)?;
    }
    Ok(host.into_book())
}
