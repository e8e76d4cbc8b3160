//! The tables of a book.

ghost use Rattle.std.specs.Prelude.{◌≡◌};
ghost use Rattle.sqlite.specs.Held.{state};
ghost use Rattle.row_lemmas.specs.Created.{IsBlank};
ghost use Rattle.acq_sql_rows.specs.Schema.{no_schema, up_to_ranges, up_to_requests};
ghost use Rattle.acq_sql_rows.specs.Schema.{up_to_postings, up_to_reconciliations, book_schema};
ghost use Rattle.acq_sql_writes.specs.Widened.{IsNeverRefused};
ghost use Rattle.acq_sql_writes.specs.Written.{StaysInside, KeepsCommitted, CommitsNothing};
ghost use Rattle.acq_sql_checking.specs.Made.{AddsTable, AddsIndex, AddsIndexed, Extends};
ghost use Rattle.acq_sql_checking.specs.Made.{RefusesNoTable, RefusesNoIndex};
ghost use Rattle.acq_sql_checking.specs.Made.{RefusesNoIndexed};

use acq_sql_rows::{Form, tables};
use sqlite::{Alter, Error, Transaction};

/// Makes the tables of the book, its merchants, terminals and ranges.
pub fn create_enrolments<S: Alter>(tx: &mut Transaction<'_, S>) -> Result<(), Error>
    ensures same_reference { tx.new.conn.ghost_name ≡ tx.old.conn.ghost_name }
    ensures extends { Extends (state S.Store tx.old.conn.now) (state S.Store tx.new.conn.now) result
        no_schema up_to_ranges }
    ensures inside { StaysInside (state S.Store tx.old.conn.now) (state S.Store tx.new.conn.now)
        result }
    ensures kept { KeepsCommitted (state S.Store tx.old.conn.now) (state S.Store tx.new.conn.now) }
    ensures survives { CommitsNothing (state S.Store tx.old.conn.now)
        (state S.Store tx.new.conn.now) }
    ensures fails { IsNeverRefused (state S.Store tx.old.conn.now) (state S.Store tx.new.conn.now)
        result (IsBlank no_schema) }
{
    create(tx, tables::BOOK)?;
    create(tx, tables::MERCHANTS)?;
    create(tx, tables::TERMINALS)?;
    create(tx, tables::RANGES)?;
    Ok(())
}

/// Makes the tables of requests, postings, reconciliations and running totals, and behind them the
/// index of references.
pub fn create_records<S: Alter>(tx: &mut Transaction<'_, S>, form: Form) -> Result<(), Error>
    ensures same_reference { tx.new.conn.ghost_name ≡ tx.old.conn.ghost_name }
    ensures extends { Extends (state S.Store tx.old.conn.now) (state S.Store tx.new.conn.now) result
        up_to_ranges (book_schema form) }
    ensures inside { StaysInside (state S.Store tx.old.conn.now) (state S.Store tx.new.conn.now)
        result }
    ensures kept { KeepsCommitted (state S.Store tx.old.conn.now) (state S.Store tx.new.conn.now) }
    ensures survives { CommitsNothing (state S.Store tx.old.conn.now)
        (state S.Store tx.new.conn.now) }
    ensures fails { IsNeverRefused (state S.Store tx.old.conn.now) (state S.Store tx.new.conn.now)
        result (IsBlank up_to_ranges) }
{
    create_requests(tx, form)?;
    create_postings(tx, form)?;
    create_reconciliations(tx, form)?;
    create(tx, tables::RUNNING)?;
    create_index(tx, tables::REFERENCES)?;
    Ok(())
}

/// Makes the table of requests, in this form.
fn create_requests<S: Alter>(tx: &mut Transaction<'_, S>, form: Form) -> Result<(), Error>
    ensures same_reference { tx.new.conn.ghost_name ≡ tx.old.conn.ghost_name }
    ensures extends { Extends (state S.Store tx.old.conn.now) (state S.Store tx.new.conn.now) result
        up_to_ranges (up_to_requests form) }
    ensures inside { StaysInside (state S.Store tx.old.conn.now) (state S.Store tx.new.conn.now)
        result }
    ensures kept { KeepsCommitted (state S.Store tx.old.conn.now) (state S.Store tx.new.conn.now) }
    ensures survives { CommitsNothing (state S.Store tx.old.conn.now)
        (state S.Store tx.new.conn.now) }
    ensures fails { IsNeverRefused (state S.Store tx.old.conn.now) (state S.Store tx.new.conn.now)
        result (IsBlank up_to_ranges) }
{
    match form {
        Form::Unique => create(tx, tables::UNIQUE_REQUESTS),
        Form::Plain => create_indexed(tx, tables::REQUESTS, tables::KEYS),
    }
}

/// Makes the table of postings, in this form.
fn create_postings<S: Alter>(tx: &mut Transaction<'_, S>, form: Form) -> Result<(), Error>
    ensures same_reference { tx.new.conn.ghost_name ≡ tx.old.conn.ghost_name }
    ensures extends { Extends (state S.Store tx.old.conn.now) (state S.Store tx.new.conn.now) result
        (up_to_requests form) (up_to_postings form) }
    ensures inside { StaysInside (state S.Store tx.old.conn.now) (state S.Store tx.new.conn.now)
        result }
    ensures kept { KeepsCommitted (state S.Store tx.old.conn.now) (state S.Store tx.new.conn.now) }
    ensures survives { CommitsNothing (state S.Store tx.old.conn.now)
        (state S.Store tx.new.conn.now) }
    ensures fails { IsNeverRefused (state S.Store tx.old.conn.now) (state S.Store tx.new.conn.now)
        result (IsBlank (up_to_requests form)) }
{
    match form {
        Form::Unique => create(tx, tables::UNIQUE_POSTINGS),
        Form::Plain => create_indexed(tx, tables::POSTINGS, tables::POSTING_NUMBERS),
    }
}

/// Makes the table of reconciliations, in this form.
fn create_reconciliations<S: Alter>(tx: &mut Transaction<'_, S>, form: Form) -> Result<(), Error>
    ensures same_reference { tx.new.conn.ghost_name ≡ tx.old.conn.ghost_name }
    ensures extends { Extends (state S.Store tx.old.conn.now) (state S.Store tx.new.conn.now) result
        (up_to_postings form) (up_to_reconciliations form) }
    ensures inside { StaysInside (state S.Store tx.old.conn.now) (state S.Store tx.new.conn.now)
        result }
    ensures kept { KeepsCommitted (state S.Store tx.old.conn.now) (state S.Store tx.new.conn.now) }
    ensures survives { CommitsNothing (state S.Store tx.old.conn.now)
        (state S.Store tx.new.conn.now) }
    ensures fails { IsNeverRefused (state S.Store tx.old.conn.now) (state S.Store tx.new.conn.now)
        result (IsBlank (up_to_postings form)) }
{
    match form {
        Form::Unique => create(tx, tables::UNIQUE_RECONCILIATIONS),
        Form::Plain => create_indexed(tx, tables::RECONCILIATIONS, tables::RECONCILIATION_NUMBERS),
    }
}

/// Makes one table and an index of it.
fn create_indexed<S: Alter>(
    tx: &mut Transaction<'_, S>,
    table: &str,
    index: &str,
) -> Result<(), Error>
    ensures same_reference { tx.new.conn.ghost_name ≡ tx.old.conn.ghost_name }
    ensures adds { AddsIndexed (state S.Store tx.old.conn.now) (state S.Store tx.new.conn.now)
        result table.now index.now }
    ensures inside { StaysInside (state S.Store tx.old.conn.now) (state S.Store tx.new.conn.now)
        result }
    ensures kept { KeepsCommitted (state S.Store tx.old.conn.now) (state S.Store tx.new.conn.now) }
    ensures survives { CommitsNothing (state S.Store tx.old.conn.now)
        (state S.Store tx.new.conn.now) }
    ensures fails { RefusesNoIndexed (state S.Store tx.old.conn.now)
        (state S.Store tx.new.conn.now) result table.now index.now }
{
    create(tx, table)?;
    create_index(tx, index)
}

/// Makes one table.
fn create<S: Alter>(tx: &mut Transaction<'_, S>, sql: &str) -> Result<(), Error>
    ensures same_reference { tx.new.conn.ghost_name ≡ tx.old.conn.ghost_name }
    ensures adds { AddsTable (state S.Store tx.old.conn.now) (state S.Store tx.new.conn.now) result
        sql.now }
    ensures inside { StaysInside (state S.Store tx.old.conn.now) (state S.Store tx.new.conn.now)
        result }
    ensures kept { KeepsCommitted (state S.Store tx.old.conn.now) (state S.Store tx.new.conn.now) }
    ensures survives { CommitsNothing (state S.Store tx.old.conn.now)
        (state S.Store tx.new.conn.now) }
    ensures fails { RefusesNoTable (state S.Store tx.old.conn.now) (state S.Store tx.new.conn.now)
        result sql.now }
{
    tx.execute(sql, &[])?;
    Ok(())
}

/// Makes one index.
fn create_index<S: Alter>(tx: &mut Transaction<'_, S>, sql: &str) -> Result<(), Error>
    ensures same_reference { tx.new.conn.ghost_name ≡ tx.old.conn.ghost_name }
    ensures adds { AddsIndex (state S.Store tx.old.conn.now) (state S.Store tx.new.conn.now) result
        sql.now }
    ensures inside { StaysInside (state S.Store tx.old.conn.now) (state S.Store tx.new.conn.now)
        result }
    ensures kept { KeepsCommitted (state S.Store tx.old.conn.now) (state S.Store tx.new.conn.now) }
    ensures survives { CommitsNothing (state S.Store tx.old.conn.now)
        (state S.Store tx.new.conn.now) }
    ensures fails { RefusesNoIndex (state S.Store tx.old.conn.now) (state S.Store tx.new.conn.now)
        result sql.now }
{
    tx.execute(sql, &[])?;
    Ok(())
}
