//! Books in files.

ghost use Rattle.std.specs.Prelude.{◌≡◌, ◌≢◌, ◌↔◌, ℕ, IfErr, IfOk, IfSome, None, false};
ghost use Rattle.sqlite_wal.specs.Files.{image_at};
ghost use Rattle.sqlite.specs.Files.{IsOpened, file_state};
ghost use Rattle.sqlite.specs.Held.{state};
ghost use Rattle.sqlite.specs.Start.{FindsIn};
ghost use Rattle.sqlite.specs.State.{HasCleanDisk};
ghost use Rattle.card_no.specs.Prefix.{six_digits};
ghost use Rattle.acq_core.specs.Pasts.{HasPast, HasPastUnder};
ghost use Rattle.acq_core.specs.Tables.{Tables, new_tables};
ghost use Rattle.acq_core.specs.Widening.{widened_tables};
ghost use Rattle.acq_sql_rows.specs.Rows.{version, version_of_six_digits};
ghost use Rattle.acq_sql_rows.specs.Schema.{no_schema};
ghost use Rattle.acq_sql_rows.specs.Standing.{IsAtOf};
ghost use Rattle.acq_sql_checking.specs.Checked.{IsFailure};
ghost use Rattle.acq_sql_opening.specs.Files.{FilesHold, FilesHoldOf};
ghost use Rattle.acq_sql.specs.Kept.{IsFresh};
ghost use Rattle.acq_sql.specs.Opened.{IsOpenAt, IsRoomy};
ghost use Rattle.acq_sql_checking.specs.declared.opening_fault.OpeningFault.TheVariants.{NotABook};
ghost use Rattle.acqd.specs.Found.{IsFound};

use crate::no_book::NoBook;
use acq_core::Limit;
use acq_program::PageSums;
use acq_sql::{Refusal, SqlBook};
use acq_sql_checking::OpeningFault;
use acq_sql_opening::{an_open_finds_a_book_of_any_version, an_open_finds_the_book, put_in_order};
use day_totals::Day;
use sqlite::{Alter, Connection};
use sqlite_disk::Start;
use sqlite_std_file::FileFrom;
use sqlite_store::FileStore;
use std::alloc::Global;

/// Opens the book in the file at a path and its log, of which `D` says what they hold before it.
/// Where they hold a book, this is it, at the tables that the last whole change led to, and only
/// memory or the store can be in the way. A book whose tables stand in another order is put in
/// order. Called where `find_book` found that there may be one.
pub fn open_book<D: Start>(
    rt: &HostRuntime,
    path: &str,
    start: D,
) -> Result<SqlBook<FileStore<FileFrom<D>>>, NoBook<FileStore<FileFrom<D>>>>
    ensures same { IfOk result (λ book. HasCleanDisk (file_state book.connection) → (t : Tables)
        → FilesHold (image_at D.Start) t → HasPast t → IsOpenAt (file_state book.connection) t) }
    ensures unlimited { IfOk result (λ book. (file_state book.connection).step_limit ≡ None) }
    ensures fresh { IfOk result IsFresh }
    ensures accepts { IfErr result (λ none. IfSome none.connection (λ connection.
        HasCleanDisk (file_state connection)) → (t : Tables) → FilesHold (image_at D.Start) t
        → IsFailure none.fault) }
{
    match connect(rt, path, start, PageSums::Without) {
        Ok(connection) => opened(rt.alloc(), connection),
        Err(fault) => Err(NoBook {
            fault,
            connection: None,
        }),
    }
}

/// Makes a new book in the file at a path, which is empty, and its log; each page has a sum, if it
/// is to have one. A database that has tables is left as it is.
pub fn make_book<D: Start>(
    rt: &HostRuntime,
    path: &str,
    start: D,
    limit: Limit,
    first_day: Day,
    sums: PageSums,
) -> Result<SqlBook<FileStore<FileFrom<D>>>, OpeningFault>
    ensures new { IfOk result (λ book. HasCleanDisk (file_state book.connection)
        → IsOpenAt (file_state book.connection)
        (new_tables (record { limit = limit; first_day = first_day }))) }
    ensures room { IfOk result (λ book. HasCleanDisk (file_state book.connection)
        → IsRoomy (file_state book.connection)) }
    ensures fresh { IfOk result IsFresh }
{
    let connection = connect(rt, path, start, sums)?;
    match created(rt.alloc(), connection, limit, first_day) {
        Ok(book) => Ok(book),
        Err(fault) => Err(fault),
    }
}

/// Migrates the book in the file at a path, and its log, of which `D` says what they hold before
/// it. Where they hold a book whose ranges are of six digits, this is it, with its ranges widened.
/// Called where `find_book` found that there may be one.
pub fn migrate_book<D: Start>(
    rt: &HostRuntime,
    path: &str,
    start: D,
) -> Result<SqlBook<FileStore<FileFrom<D>>>, OpeningFault>
    ensures done { IfOk result (λ book. HasCleanDisk (file_state book.connection) → (t : Tables)
        → FilesHoldOf version_of_six_digits (image_at D.Start) t → HasPastUnder six_digits t
        → IsOpenAt (file_state book.connection) (widened_tables t)) }
    ensures fresh { IfOk result IsFresh }
{
    match connect(rt, path, start, PageSums::Without) {
        Ok(connection) => migrated(rt.alloc(), connection),
        Err(fault) => Err(fault),
    }
}

// What follows is said of any store: a proof over that of this machine alone takes minutes.

/// A new book in a database. One that is refused is closed.
fn created<S: Alter + Drop>(
    alloc: Global,
    connection: Connection<S>,
    limit: Limit,
    first_day: Day,
) -> Result<SqlBook<S>, OpeningFault>
    requires settled { connection.in_transaction ≡ false }
    ensures new { IfOk result (λ book. HasCleanDisk (state S.Store book.connection)
        → IsOpenAt (state S.Store book.connection)
        (new_tables (record { limit = limit; first_day = first_day }))) }
    ensures room { IfOk result (λ book. HasCleanDisk (state S.Store book.connection)
        → (state S.Store connection).step_limit ≡ None
        → IsRoomy (state S.Store book.connection)) }
    ensures fresh { IfOk result IsFresh }
    ensures refused { IfErr result (λ fault.
        (fault ≡ NotABook) ↔ (connection.schema ≢ no_schema)) }
{
    match SqlBook::create(alloc, connection, limit, first_day) {
        Ok(book) => Ok(book),
        Err(refusal) => Err(refusal.fault),
    }
}

/// The book that a database holds, put in order if its tables stand in another one.
fn opened<S: Alter>(alloc: Global, connection: Connection<S>) -> Result<SqlBook<S>, NoBook<S>>
    requires settled { connection.in_transaction ≡ false }
    ensures same { IfOk result (λ book. HasCleanDisk (state S.Store book.connection)
        → (t : Tables) → IsFound version (state S.Store connection) t → HasPast t
        → IsOpenAt (state S.Store book.connection) t) }
    ensures limit { IfOk result (λ book. (state S.Store book.connection).step_limit
        ≡ (state S.Store connection).step_limit) }
    ensures fresh { IfOk result IsFresh }
    ensures accepts { IfErr result (λ none.
        IfSome none.connection (λ left. HasCleanDisk (state S.Store left)) → (t : Tables)
        → IsFound version (state S.Store connection) t → IsFailure none.fault) }
{
    an_open_finds_the_book(&connection);
    let ordered = match in_order(alloc, connection) {
        Ok(ordered) => ordered,
        Err(refusal) => return Err(NoBook::refused(refusal)),
    };
    match SqlBook::adopt(alloc, ordered) {
        Ok(book) => Ok(book),
        Err(refusal) => Err(NoBook::refused(refusal)),
    }
}

/// The book of version 1 that a database holds, put in order and migrated. One that is refused is
/// closed.
fn migrated<S: Alter + Drop>(
    alloc: Global,
    connection: Connection<S>,
) -> Result<SqlBook<S>, OpeningFault>
    requires settled { connection.in_transaction ≡ false }
    ensures done { IfOk result (λ book. HasCleanDisk (state S.Store book.connection)
        → (t : Tables) → IsFound version_of_six_digits (state S.Store connection) t
        → HasPastUnder six_digits t
        → IsOpenAt (state S.Store book.connection) (widened_tables t)) }
    ensures fresh { IfOk result IsFresh }
{
    an_open_finds_a_book_of_any_version(&connection);
    let ordered = match in_order(alloc, connection) {
        Ok(ordered) => ordered,
        Err(refusal) => return Err(refusal.fault),
    };
    match SqlBook::migrate(alloc, ordered) {
        Ok(book) => Ok(book),
        Err(refusal) => Err(refusal.fault),
    }
}

/// A database whose tables are put in order, if they are a book's and stand in another one.
fn in_order<S: Alter>(
    alloc: Global,
    mut connection: Connection<S>,
) -> Result<Connection<S>, Refusal<S>>
    requires settled { connection.in_transaction ≡ false }
    ensures settled { IfOk result (λ ordered. ordered.in_transaction ≡ false) }
    // A book in order stays as it is.
    ensures at { IfOk result (λ ordered. (version : ℕ) (t : Tables)
        → IsAtOf version (state S.Store connection) t
        → IsAtOf version (state S.Store ordered) t) }
    ensures clean { IfOk result (λ ordered. HasCleanDisk (state S.Store ordered)
        → HasCleanDisk (state S.Store connection)) }
    ensures limit { IfOk result (λ ordered. (state S.Store ordered).step_limit
        ≡ (state S.Store connection).step_limit) }
    ensures failure { IfErr result (λ refusal. IsFailure refusal.fault) }
{
    match put_in_order(&mut connection, alloc) {
        Ok(()) => Ok(connection),
        Err(fault) => Err(Refusal { fault, connection }),
    }
}

/// Opens the files at a path. Whether a file that is there has sums stands in its header; a wrong
/// one is a failure of the store.
fn connect<D: Start>(
    rt: &HostRuntime,
    path: &str,
    start: D,
    sums_of_new: PageSums,
) -> Result<Connection<FileStore<FileFrom<D>>>, OpeningFault>
    ensures opened { IfOk result (λ connection. HasCleanDisk (file_state connection)
        → IsOpened connection) }
    ensures found { IfOk result (λ connection. HasCleanDisk (file_state connection)
        → FindsIn (image_at D.Start) (file_state connection)) }
    ensures settled { IfOk result (λ connection. connection.in_transaction ≡ false) }
    ensures unlimited { IfOk result (λ connection. connection.step_limit ≡ None) }
    ensures failure { IfErr result IsFailure }
{
    match Connection::open_from(rt, path, sums_of_new == PageSums::With, start) {
        Ok(connection) => Ok(connection),
        Err((error, _)) => Err(OpeningFault::from(error)),
    }
}
