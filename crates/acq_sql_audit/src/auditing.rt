//! A file against a book in memory.

ghost use Rattle.std.specs.Prelude.{◌≡◌, ◌≢◌, Err, IfOk, false, is_ok};
ghost use Rattle.sqlite.specs.Held.{state};
ghost use Rattle.sqlite.specs.State.{HasCleanDisk};
ghost use Rattle.acq_core.specs.Pasts.{HasPast};
ghost use Rattle.acq_sql_rows.specs.Relation.{Holds};
ghost use Rattle.acq_sql_rows.specs.Schema.{IsBookSchema};
ghost use Rattle.acq_sql_reads.specs.Looked.{LooksOnly};
ghost use Rattle.acq_sql_audit.specs.Audited.{Audits, made_by};
ghost use Rattle.acq_sql_audit.specs.Compared.{AreInOrder};
ghost use Rattle.acq_sql_audit.specs.declared.audit_fault.AuditFault.TheVariants.{NotABook};

use crate::comparing::first_difference;
use crate::taking::after_events;
use crate::{AuditFault, Difference};
use acq_core::{Event, Limit};
use acq_sql::SqlBook;
use acq_sql_checking::is_book_schema;
use day_totals::Day;
use sqlite::{Alter, Connection};
use std::alloc::Global;

/// Compares a file with the book that began so and took these events, which is made in memory, and
/// says where the file differs first, if it does. The file is only looked at.
pub fn audit<S: Alter>(
    alloc: Global,
    file: &mut Connection<S>,
    limit: Limit,
    first_day: Day,
    events: &[Event],
) -> Result<Option<Difference>, AuditFault>
    ensures audits { HasCleanDisk (state S.Store file.new)
        → AreInOrder (state S.Store file.old).now.trees → IfOk result
        (Audits (state S.Store file.old).now (made_by limit first_day events.now)) }
    ensures past { IfOk result (λ difference. HasPast (made_by limit first_day events.now)) }
    ensures book { IfOk result (λ difference.
        IsBookSchema (state S.Store file.old).now.schema) }
    ensures refused { result ≡ Err NotABook → ¬ IsBookSchema (state S.Store file.old).now.schema }
    ensures looks { LooksOnly (state S.Store file.old) (state S.Store file.new) (is_ok result) }
{
    if !is_book_schema(alloc, file.schema())? {
        return Err(AuditFault::NotABook);
    }
    let made = Connection::open_in_memory(alloc)?;
    let mut made = with_events(alloc, made, limit, first_day, events)?;
    Ok(first_difference(file, &mut made)?)
}

/// Makes a new book in an empty database, and takes events over it.
fn with_events<M: Alter + Drop>(
    alloc: Global,
    made: Connection<M>,
    limit: Limit,
    first_day: Day,
    events: &[Event],
) -> Result<Connection<M>, AuditFault>
    requires settled { made.in_transaction ≡ false }
    ensures holds { IfOk result (λ made. HasCleanDisk (state M.Store made)
        → Holds (state M.Store made).now (made_by limit first_day events.now)) }
    ensures past { IfOk result (λ made. HasCleanDisk (state M.Store made)
        → HasPast (made_by limit first_day events.now)) }
    ensures named { result ≢ Err NotABook }
{
    let book = match SqlBook::create(alloc, made, limit, first_day) {
        Ok(book) => book,
        Err(refusal) => return Err(AuditFault::from(refusal.fault)),
    };
    let book = after_events(alloc, book, events)?;
    Ok(book.into_connection())
}
