//! New books.

ghost use Rattle.std.specs.Prelude.{◌≡◌, ◌≢◌, ◌↔◌, false, [], IsTrue, Err, IfErr, IfOk, OnOk};
ghost use Rattle.sqlite.specs.State.{HasCleanDisk, Survives};
ghost use Rattle.sqlite.specs.Held.{state};
ghost use Rattle.row_lemmas.specs.Created.{IsBlank};
ghost use Rattle.acq_core.specs.Tables.{new_tables};
ghost use Rattle.acq_sql_rows.specs.Schema.{no_schema};
ghost use Rattle.acq_sql_rows.specs.Relation.{HoldsRows};
ghost use Rattle.acq_sql_writes.specs.Written.{StaysInside, KeepsCommitted, CommitsNothing};
ghost use Rattle.acq_sql_rows.specs.Standing.{IsAt, HoldsAfter};
ghost use Rattle.acq_sql_writes.specs.Refused.{HasNumbersLeft};
ghost use Rattle.acq_sql_writes.specs.Widened.{IsNeverRefused};
ghost use Rattle.acq_sql_checking.specs.Blames.{OpeningBlamesStore, FailsExcusably};
ghost use Rattle.acq_sql_checking.specs.Made.{IsNewBook, LeavesDatabase};
ghost use Rattle.acq_sql_checking.specs.declared.opening_fault.OpeningFault.TheVariants.{NotABook};

use acq_core::Limit;
use acq_sql_checking::{OpeningFault, create_enrolments, create_records};
use acq_sql_rows::Form;
use acq_sql_writes::add_book;
use day_totals::Day;
use sqlite::{Alter, Connection, Error, Transaction};
use sqlite_disk::Disk;
use sqlite_schema::schema::Schema;
use sqlite_store::FileStore;

/// Makes a new book in an empty database: how many messages of a merchant a day admits, and the
/// first business day. A database that has a table, an index or a view is no book, and is left as
/// it is.
pub fn make_book<S: Alter>(
    conn: &mut Connection<S>,
    limit: Limit,
    first_day: Day,
) -> Result<(), OpeningFault>
    requires settled { conn.old.in_transaction ≡ false }
    ensures settled { conn.new.in_transaction ≡ false }
    ensures refused { (result ≡ Err NotABook) ↔ (conn.old.schema ≢ no_schema) }
    ensures empty { OnOk result (conn.old.schema ≡ no_schema) }
    ensures unchanged { result ≡ Err NotABook → conn.new ≡ conn.old }
    ensures done { HasCleanDisk (state S.Store conn.new) → OnOk result
        (IsAt (state S.Store conn.new)
        (new_tables (record { limit = limit; first_day = first_day }))) }
    ensures room { HasCleanDisk (state S.Store conn.new) → OnOk result
        (HasNumbersLeft (state S.Store conn.new).now) }
    ensures undone { LeavesDatabase (state S.Store conn.old) (state S.Store conn.new) result }
    ensures crash { Survives (state S.Store conn.old) (state S.Store conn.new)
        (HoldsAfter (new_tables (record { limit = limit; first_day = first_day }))) }
    ensures blames { IfErr result
        (OpeningBlamesStore (state S.Store conn.old) (state S.Store conn.new)) }
{
    if !is_empty(conn.schema()) {
        return Err(OpeningFault::NotABook);
    }
    Ok(write_book(conn, limit, first_day)?)
}

/// Whether a database in files has no table, no index and no view. It is closed.
pub fn has_no_tables<D: Disk + Drop>(
    connection: Connection<FileStore<D>>,
) -> Result<bool, OpeningFault>
    ensures { IfOk result (λ is_empty. IsTrue is_empty ↔ (connection.schema ≡ no_schema)) }
{
    let is_empty = is_empty(connection.schema());
    connection.close()?;
    Ok(is_empty)
}

fn is_empty(schema: &Schema) -> bool
    ensures { IsTrue result ↔ (schema.now ≡ no_schema) }
{
    schema.tables.is_empty() && schema.indexes.is_empty() && schema.views.is_empty()
}

/// Makes the book in one transaction.
fn write_book<S: Alter>(conn: &mut Connection<S>, limit: Limit, first_day: Day) -> Result<(), Error>
    requires settled { conn.old.in_transaction ≡ false }
    requires empty { conn.old.schema ≡ no_schema }
    ensures settled { conn.new.in_transaction ≡ false }
    ensures done { HasCleanDisk (state S.Store conn.new) → OnOk result
        (IsNewBook (record { limit = limit; first_day = first_day }) (state S.Store conn.new)) }
    ensures undone { LeavesDatabase (state S.Store conn.old) (state S.Store conn.new) result }
    ensures crash { Survives (state S.Store conn.old) (state S.Store conn.new)
        (HoldsAfter (new_tables (record { limit = limit; first_day = first_day }))) }
    ensures fails { FailsExcusably (state S.Store conn.old) (state S.Store conn.new) result }
{
    let mut tx = conn.transaction();
    write_tables(&mut tx, limit, first_day)?;
    tx.commit()
}

/// Makes the tables and the book's row.
fn write_tables<S: Alter>(
    tx: &mut Transaction<'_, S>,
    limit: Limit,
    first_day: Day,
) -> Result<(), Error>
    ensures same_reference { tx.new.conn.ghost_name ≡ tx.old.conn.ghost_name }
    ensures begins { HasCleanDisk (state S.Store tx.new.conn.now)
        → IsTrue (state S.Store tx.old.conn.now).in_transaction
        → tx.old.conn.now.schema ≡ no_schema → OnOk result
        (HoldsRows (state S.Store tx.new.conn.now).now
        (new_tables (record { limit = limit; first_day = first_day })) []) }
    ensures inside { StaysInside (state S.Store tx.old.conn.now) (state S.Store tx.new.conn.now)
        result }
    ensures kept { KeepsCommitted (state S.Store tx.old.conn.now) (state S.Store tx.new.conn.now) }
    ensures survives { CommitsNothing (state S.Store tx.old.conn.now)
        (state S.Store tx.new.conn.now) }
    ensures fails { IsNeverRefused (state S.Store tx.old.conn.now) (state S.Store tx.new.conn.now)
        result (IsBlank no_schema) }
{
    create_enrolments(tx)?;
    create_records(tx, Form::Plain)?;
    add_book(tx, limit, first_day)?;
    Ok(())
}
