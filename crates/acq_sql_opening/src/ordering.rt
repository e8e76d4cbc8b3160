//! Books whose tables and indexes stand in another order: those of earlier builds, and those that a
//! tool wrote in an order of its own.

ghost use Rattle.std.specs.Prelude.{◌≡◌, false, IfErr, IfOk, None};
ghost use Rattle.sqlite.specs.Held.{state};
ghost use Rattle.acq_sql_rows.specs.Schema.{IsBookSchema};
ghost use Rattle.acq_sql_writes.specs.Written.{CommitsNothing};
ghost use Rattle.acq_sql_checking.specs.Checked.{IsFailure};
ghost use Rattle.acq_sql_opening.specs.Ordered.{LeavesWhole};

use acq_sql_checking::{
    Alike, OpeningFault, create_enrolments, create_tables, has_same_columns, is_book_schema,
};
use acq_sql_rows::{Form, tables, texts};
use sqlite::types::ValueRef;
use sqlite::{Alter, Connection, Error, Row, Transaction};
use sqlite_schema::schema::{Index, Schema, Table};
use std::alloc::Global;

/// Requests, as builds made them that had no index of references: as a unique key.
const REQUESTS_WITH_UNIQUE_REFERENCES: &str = "CREATE TABLE requests (merchant TEXT, \
    terminal TEXT, kind TEXT, trace TEXT, stamp TEXT, essence TEXT NOT NULL, \
    day INTEGER NOT NULL, status INTEGER NOT NULL, admitted INTEGER NOT NULL, \
    reference INTEGER, follows INTEGER, amount INTEGER NOT NULL, leg INTEGER NOT NULL, \
    card TEXT, acquirer TEXT, hold_days INTEGER, until INTEGER, reply TEXT NOT NULL, \
    PRIMARY KEY (merchant, terminal, kind, trace, stamp), UNIQUE (merchant, reference)) STRICT";

const DROP_KEYS: &str = "DROP INDEX IF EXISTS requests_by_key";

const DROP_POSTING_NUMBERS: &str = "DROP INDEX IF EXISTS postings_by_number";

const DROP_RECONCILIATION_NUMBERS: &str = "DROP INDEX IF EXISTS reconciliations_by_number";

const DROP_REFERENCES: &str = "DROP INDEX IF EXISTS requests_by_reference";

/// A table of the book, and how it is written anew.
#[derive(Clone, Copy)]
struct BookTable {
    made_by: &'static str,
    indexed_by: Option<&'static str>,
    read_by: &'static str,
    dropped_by: &'static str,
    filled_by: &'static str,
}

/// The tables in their order.
const TABLES: [BookTable; 8] = [
    BookTable {
        made_by: tables::BOOK,
        indexed_by: None,
        read_by: "SELECT * FROM book ORDER BY rowid",
        dropped_by: "DROP TABLE book",
        filled_by: texts::ADD_BOOK,
    },
    BookTable {
        made_by: tables::MERCHANTS,
        indexed_by: None,
        read_by: "SELECT * FROM merchants ORDER BY rowid",
        dropped_by: "DROP TABLE merchants",
        filled_by: texts::ADD_MERCHANT,
    },
    BookTable {
        made_by: tables::TERMINALS,
        indexed_by: None,
        read_by: "SELECT * FROM terminals ORDER BY rowid",
        dropped_by: "DROP TABLE terminals",
        filled_by: texts::ADD_TERMINAL,
    },
    BookTable {
        made_by: tables::RANGES,
        indexed_by: None,
        read_by: "SELECT * FROM ranges ORDER BY rowid",
        dropped_by: "DROP TABLE ranges",
        filled_by: texts::ADD_RANGE,
    },
    BookTable {
        made_by: tables::REQUESTS,
        indexed_by: Some(tables::KEYS),
        read_by: "SELECT * FROM requests ORDER BY rowid",
        dropped_by: "DROP TABLE requests",
        filled_by: texts::ADD_REQUEST,
    },
    BookTable {
        made_by: tables::POSTINGS,
        indexed_by: Some(tables::POSTING_NUMBERS),
        read_by: "SELECT * FROM postings ORDER BY rowid",
        dropped_by: "DROP TABLE postings",
        filled_by: texts::ADD_POSTING,
    },
    BookTable {
        made_by: tables::RECONCILIATIONS,
        indexed_by: Some(tables::RECONCILIATION_NUMBERS),
        read_by: "SELECT * FROM reconciliations ORDER BY rowid",
        dropped_by: "DROP TABLE reconciliations",
        filled_by: texts::ADD_RECONCILIATION,
    },
    BookTable {
        made_by: tables::RUNNING,
        indexed_by: None,
        read_by: "SELECT * FROM running ORDER BY rowid",
        dropped_by: "DROP TABLE running",
        filled_by: ADD_RUNNING,
    },
];

/// How many tables stand up to requests.
const UP_TO_REQUESTS: usize = 5;

const ADD_RUNNING: &str =
    "INSERT INTO running VALUES (?1, ?2, ?3, ?4, ?5, ?6, ?7, ?8, ?9, ?10, ?11)";

/// Puts the tables of a book in order, where they or their indexes stand in another one, or requests
/// have the unique references of the first builds: in one transaction, with the rows that they have,
/// each table is written anew from the first on that isn't in its place, and all get plain indexes. A
/// database with other tables is left as it is, and so is a book that is in order, in either form.
pub fn put_in_order<S: Alter>(conn: &mut Connection<S>, alloc: Global) -> Result<(), OpeningFault>
    requires settled { conn.old.in_transaction ≡ false }
    ensures settled { conn.new.in_transaction ≡ false }
    ensures unchanged { IsBookSchema conn.old.schema → conn.new ≡ conn.old }
    // A stop leaves what it might before, or the whole that is then in order.
    ensures stop { LeavesWhole (state S.Store conn.old) (state S.Store conn.new) result }
    ensures failure { IfErr result IsFailure }
{
    match tables_in_place(alloc, conn.schema())? {
        Some(kept) => Ok(write_anew(conn, alloc, kept)?),
        None => Ok(()),
    }
}

/// How many tables are in their places, one behind the other, in a schema that has a book's tables
/// and is to be put in order.
fn tables_in_place(alloc: Global, schema: &Schema) -> Result<Option<usize>, Error>
    ensures { IsBookSchema schema.now → IfOk result (λ kept. kept ≡ None) }
{
    if is_book_schema(alloc, schema)? {
        return Ok(None);
    }
    let mut ours = Connection::open_in_memory(alloc)?;
    create_tables(&mut ours, Form::Plain)?;
    if has_same_objects(ours.schema(), schema) || is_earlier(alloc, schema)? {
        Ok(Some(first_in_place(ours.schema().tables.as_slice(), schema.tables.as_slice())))
    } else {
        Ok(None)
    }
}

/// Whether a schema has the tables and indexes of earlier builds, wherever they stand.
fn is_earlier(alloc: Global, schema: &Schema) -> Result<bool, Error> {
    let mut unique = Connection::open_in_memory(alloc)?;
    create_tables(&mut unique, Form::Unique)?;
    let mut first = Connection::open_in_memory(alloc)?;
    create_first_tables(&mut first)?;
    Ok(has_same_objects(unique.schema(), schema) || has_same_objects(first.schema(), schema))
}

/// Makes the tables as the first builds did, which had no index of references.
fn create_first_tables<S: Alter>(conn: &mut Connection<S>) -> Result<(), Error>
    requires settled { conn.old.in_transaction ≡ false }
{
    let mut tx = conn.transaction();
    create_enrolments(&mut tx)?;
    run(&mut tx, REQUESTS_WITH_UNIQUE_REFERENCES, &[])?;
    run(&mut tx, tables::UNIQUE_POSTINGS, &[])?;
    run(&mut tx, tables::UNIQUE_RECONCILIATIONS, &[])?;
    run(&mut tx, tables::RUNNING, &[])?;
    tx.commit()
}

/// Whether a schema has these tables and indexes, wherever they stand, and no other object.
fn has_same_objects(ours: &Schema, schema: &Schema) -> bool {
    schema.views.is_empty()
        && schema.tables.len() == ours.tables.len()
        && schema.indexes.len() == ours.indexes.len()
        && have_same_tables(ours.tables.as_slice(), schema.tables.as_slice())
        && have_same_indexes(ours.indexes.as_slice(), schema.indexes.as_slice())
}

fn have_same_tables(ours: &[Table], tables: &[Table]) -> bool {
    for table in ours {
        if !tables.iter().any(|other| has_same_columns(table, other)) {
            return false;
        }
    }
    true
}

fn have_same_indexes(ours: &[Index], indexes: &[Index]) -> bool {
    for index in ours {
        if !indexes.iter().any(|other| has_same_key(index, other)) {
            return false;
        }
    }
    true
}

/// Whether two indexes are the same but for their trees.
fn has_same_key(a: &Index, b: &Index) -> bool {
    a.name.as_slice() == b.name.as_slice()
        && a.columns.is_alike(&b.columns)
        && a.order == b.order
        && a.is_unique == b.is_unique
}

/// How many tables are the same from the first on.
fn first_in_place(ours: &[Table], tables: &[Table]) -> usize {
    for (place, table) in ours.iter().enumerate() {
        if !tables.get(place).is_some_and(|other| table.is_alike(other)) {
            return place;
        }
    }
    ours.len()
}

/// Writes all tables but the first ones anew, each with its index, and behind them the index of
/// references. At most the tables up to requests are kept, whose index is made anew in any case: a
/// number is free only once all tables and indexes behind it are gone.
fn write_anew<S: Alter>(conn: &mut Connection<S>, alloc: Global, kept: usize) -> Result<(), Error>
    requires settled { conn.old.in_transaction ≡ false }
    ensures settled { conn.new.in_transaction ≡ false }
    ensures stop { LeavesWhole (state S.Store conn.old) (state S.Store conn.new) result }
{
    let keeps_requests = kept >= UP_TO_REQUESTS;
    let written = TABLES.get(kept.min(UP_TO_REQUESTS)..).unwrap_or(&[]);
    let mut tx = conn.transaction();
    make_anew(&mut tx, alloc, written, keeps_requests)?;
    tx.commit()
}

/// Makes tables anew, with the rows that they have.
fn make_anew<S: Alter>(
    tx: &mut Transaction<'_, S>,
    alloc: Global,
    written: &[BookTable],
    keeps_requests: bool,
) -> Result<(), Error>
    ensures same_reference { tx.new.conn.ghost_name ≡ tx.old.conn.ghost_name }
    ensures survives { CommitsNothing (state S.Store tx.old.conn.now)
        (state S.Store tx.new.conn.now) }
{
    let rows = rows_of(tx, alloc, written)?;
    drop_indexes(tx)?;
    drop_tables(tx, written)?;
    index_requests(tx, keeps_requests)?;
    fill_tables(tx, alloc, written, rows.as_slice())?;
    run(tx, tables::REFERENCES, &[])
}

/// Makes the index of the requests that are kept, if they are.
fn index_requests<S: Alter>(tx: &mut Transaction<'_, S>, are_kept: bool) -> Result<(), Error>
    ensures same_reference { tx.new.conn.ghost_name ≡ tx.old.conn.ghost_name }
    ensures survives { CommitsNothing (state S.Store tx.old.conn.now)
        (state S.Store tx.new.conn.now) }
{
    if are_kept {
        run(tx, tables::KEYS, &[])
    } else {
        Ok(())
    }
}

/// The rows of tables, each in its order.
fn rows_of<S: Alter>(
    tx: &mut Transaction<'_, S>,
    alloc: Global,
    written: &[BookTable],
) -> Result<Vec<Vec<Row>>, Error>
    ensures same_reference { tx.new.conn.ghost_name ≡ tx.old.conn.ghost_name }
    ensures survives { CommitsNothing (state S.Store tx.old.conn.now)
        (state S.Store tx.new.conn.now) }
{
    let mut all = Vec::new(alloc);
    for table in written {
        let rows = tx.query_all(table.read_by, &[])?;
        all.push(rows)?;
    }
    Ok(all)
}

/// Drops all plain indexes.
fn drop_indexes<S: Alter>(tx: &mut Transaction<'_, S>) -> Result<(), Error>
    ensures same_reference { tx.new.conn.ghost_name ≡ tx.old.conn.ghost_name }
    ensures survives { CommitsNothing (state S.Store tx.old.conn.now)
        (state S.Store tx.new.conn.now) }
{
    run(tx, DROP_KEYS, &[])?;
    run(tx, DROP_POSTING_NUMBERS, &[])?;
    run(tx, DROP_RECONCILIATION_NUMBERS, &[])?;
    run(tx, DROP_REFERENCES, &[])
}

fn drop_tables<S: Alter>(tx: &mut Transaction<'_, S>, written: &[BookTable]) -> Result<(), Error>
    ensures same_reference { tx.new.conn.ghost_name ≡ tx.old.conn.ghost_name }
    ensures survives { CommitsNothing (state S.Store tx.old.conn.now)
        (state S.Store tx.new.conn.now) }
{
    for table in written {
        run(tx, table.dropped_by, &[])?;
    }
    Ok(())
}

fn fill_tables<S: Alter>(
    tx: &mut Transaction<'_, S>,
    alloc: Global,
    written: &[BookTable],
    rows: &[Vec<Row>],
) -> Result<(), Error>
    ensures same_reference { tx.new.conn.ghost_name ≡ tx.old.conn.ghost_name }
    ensures survives { CommitsNothing (state S.Store tx.old.conn.now)
        (state S.Store tx.new.conn.now) }
{
    for (table, rows) in written.iter().zip(rows) {
        fill_table(tx, alloc, table, rows.as_slice())?;
    }
    Ok(())
}

fn fill_table<S: Alter>(
    tx: &mut Transaction<'_, S>,
    alloc: Global,
    table: &BookTable,
    rows: &[Row],
) -> Result<(), Error>
    ensures same_reference { tx.new.conn.ghost_name ≡ tx.old.conn.ghost_name }
    ensures survives { CommitsNothing (state S.Store tx.old.conn.now)
        (state S.Store tx.new.conn.now) }
{
    make_table(tx, table)?;
    for row in rows {
        let values = values_of(alloc, row)?;
        run(tx, table.filled_by, values.as_slice())?;
    }
    Ok(())
}

/// Makes a table and its index, if it has one.
fn make_table<S: Alter>(tx: &mut Transaction<'_, S>, table: &BookTable) -> Result<(), Error>
    ensures same_reference { tx.new.conn.ghost_name ≡ tx.old.conn.ghost_name }
    ensures survives { CommitsNothing (state S.Store tx.old.conn.now)
        (state S.Store tx.new.conn.now) }
{
    run(tx, table.made_by, &[])?;
    match table.indexed_by {
        Some(index) => run(tx, index, &[]),
        None => Ok(()),
    }
}

fn values_of(alloc: Global, row: &Row) -> Result<Vec<ValueRef<'_>>, Error> {
    let mut values = Vec::new(alloc);
    for at in 0..row.column_count() {
        values.push(row.get_ref(at)?)?;
    }
    Ok(values)
}

/// Executes a statement, whatever the number of rows that it changes.
fn run<S: Alter>(
    tx: &mut Transaction<'_, S>,
    sql: &str,
    params: &[ValueRef<'_>],
) -> Result<(), Error>
    ensures same_reference { tx.new.conn.ghost_name ≡ tx.old.conn.ghost_name }
    ensures survives { CommitsNothing (state S.Store tx.old.conn.now)
        (state S.Store tx.new.conn.now) }
{
    tx.execute(sql, params)?;
    Ok(())
}
