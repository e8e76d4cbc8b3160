//! Books that a database holds already.

ghost use Rattle.std.specs.Prelude.{◌≡◌, ◌↔◌, ◌∷◌, [], false, map, IsTrue};
ghost use Rattle.std.specs.Prelude.{IfOk, IfErr, OnOk, is_ok};
ghost use Rattle.std.specs.List.Sorted.{IsPermutation};
ghost use Rattle.sqlite_value.specs.Order.{column};
ghost use Rattle.sqlite.specs.State.{HasCleanDisk};
ghost use Rattle.sqlite.specs.Held.{state};
ghost use Rattle.acq_core.specs.Tables.{Tables};
ghost use Rattle.acq_sql_rows.specs.Schema.{IsBookSchema, no_schema, book_schema};
ghost use Rattle.acq_sql_rows.specs.Standing.{IsAtOf};
ghost use Rattle.acq_sql_reads.specs.Failing.{FailsForMemory};
ghost use Rattle.acq_sql_reads.specs.Looked.{LooksOnly};
ghost use Rattle.acq_sql_checking.specs.Blames.{OpeningBlamesStore, FailsExcusably};
ghost use Rattle.acq_sql_checking.specs.Checked.{Judges, JudgesVersion, IsFailure, HasVersion};
ghost use Rattle.acq_sql_checking.specs.Checked.{HasBadVersion, HasNoNumber};

use crate::alike::Alike;
use crate::opening_fault::OpeningFault;
use crate::tables::{create_enrolments, create_records};
use acq_sql_rows::Form;
use sqlite::{Alter, Connection, Error, Row};
use sqlite_schema::schema::Schema;
use std::alloc::Global;

const VERSION_OF_BOOK: &str = "SELECT version FROM book";

/// Whether the database is a book of a version: it has the book's tables and no other object, and
/// the book's one row, whose version is the wanted one. The allocator is for the tables that it
/// compares them with.
pub fn check_book<S: Alter>(
    conn: &mut Connection<S>,
    alloc: Global,
    wanted: u32,
) -> Result<(), OpeningFault>
    ensures judged { HasCleanDisk (state S.Store conn.new)
        → Judges wanted (state S.Store conn.old).now result }
    ensures accepts { HasCleanDisk (state S.Store conn.new) → (t : Tables)
        → IsAtOf wanted (state S.Store conn.old) t → IfErr result IsFailure }
    ensures looks { LooksOnly (state S.Store conn.old) (state S.Store conn.new) (is_ok result) }
    ensures unchanged { ¬ IsBookSchema conn.old.schema → conn.new ≡ conn.old }
    ensures settled { conn.old.in_transaction ≡ false → conn.new.in_transaction ≡ false }
    ensures blames { IfErr result (λ fault. ¬ HasBadVersion (state S.Store conn.old).now
        → OpeningBlamesStore (state S.Store conn.old) (state S.Store conn.new) fault) }
{
    if !is_book_schema(alloc, conn.schema())? {
        return Err(OpeningFault::NotABook);
    }
    judge(version(conn)?, wanted)
}

/// What a check answers of the version that a book has, or of none.
fn judge(found: Option<u64>, wanted: u32) -> Result<(), OpeningFault>
    ensures { JudgesVersion wanted found result }
{
    match found {
        Some(version) if version == u64::from(wanted) => Ok(()),
        Some(version) => Err(OpeningFault::OtherVersion(version)),
        None => Err(OpeningFault::NotABook),
    }
}

/// Whether a schema is a book's, in one of its two forms.
pub fn is_book_schema(alloc: Global, schema: &Schema) -> Result<bool, Error>
    ensures same { IfOk result (λ is. IsTrue is ↔ IsBookSchema schema.now) }
    ensures fails { FailsForMemory result }
{
    Ok(has_form(alloc, schema, Form::Plain)? || has_form(alloc, schema, Form::Unique)?)
}

/// Whether a schema is the one that the texts of the tables make in this form.
pub fn has_form(alloc: Global, schema: &Schema, form: Form) -> Result<bool, Error>
    ensures same { IfOk result (λ is. IsTrue is ↔ (schema.now ≡ book_schema form)) }
    ensures fails { FailsForMemory result }
{
    let mut ours = Connection::open_in_memory(alloc)?;
    create_tables(&mut ours, form)?;
    Ok(ours.schema().is_alike(schema))
}

/// Makes the tables in this form, with no rows.
pub fn create_tables<S: Alter>(conn: &mut Connection<S>, form: Form) -> Result<(), Error>
    requires settled { conn.old.in_transaction ≡ false }
    requires empty { conn.old.schema ≡ no_schema }
    ensures made { HasCleanDisk (state S.Store conn.new)
        → OnOk result (conn.new.schema ≡ book_schema form) }
    ensures fails { FailsExcusably (state S.Store conn.old) (state S.Store conn.new) result }
{
    let mut tx = conn.transaction();
    create_enrolments(&mut tx)?;
    create_records(&mut tx, form)?;
    tx.commit()
}

/// The version of the book's one row, or `None` where it hasn't one row.
fn version<S: Alter>(conn: &mut Connection<S>) -> Result<Option<u64>, Error>
    ensures read { HasCleanDisk (state S.Store conn.new) → IsBookSchema conn.old.schema
        → IfOk result (HasVersion (state S.Store conn.old).now.trees) }
    ensures looks { LooksOnly (state S.Store conn.old) (state S.Store conn.new) (is_ok result) }
    ensures settled { conn.old.in_transaction ≡ false → conn.new.in_transaction ≡ false }
    ensures fails { IsBookSchema conn.old.schema
        → ¬ HasNoNumber (state S.Store conn.old).now.trees
        → FailsExcusably (state S.Store conn.old) (state S.Store conn.new) result }
{
    let rows = version_rows(conn)?;
    match rows.as_slice() {
        [row] => Ok(Some(row.get(0)?)),
        _ => Ok(None),
    }
}

fn version_rows<S: Alter>(conn: &mut Connection<S>) -> Result<Vec<Row>, Error>
    ensures shows { HasCleanDisk (state S.Store conn.new) → IsBookSchema conn.old.schema
        → IfOk result (λ rows. IsPermutation
        (map (λ row. column row 1 ∷ []) ((state S.Store conn.old).now.trees 0)) rows.items) }
    ensures looks { LooksOnly (state S.Store conn.old) (state S.Store conn.new) (is_ok result) }
    ensures settled { conn.old.in_transaction ≡ false → conn.new.in_transaction ≡ false }
    ensures fails { IsBookSchema conn.old.schema
        → FailsExcusably (state S.Store conn.old) (state S.Store conn.new) result }
{
    conn.query_all(VERSION_OF_BOOK, &[])
}
