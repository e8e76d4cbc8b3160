//! Counts of requests, terminals and ranges.

ghost use Rattle.std.specs.Prelude.{◌≡◌, ◌≢◌, ◌≤◌, ◌∷◌, [], ℕ, true, Some};
ghost use Rattle.std.specs.Prelude.{IfSome, IfOk, IfErr, is_ok};
ghost use Rattle.sqlite_sql.specs.Aggregate.{count};
ghost use Rattle.sqlite.specs.State.{HasCleanDisk, FailsToQuery, Shown};
ghost use Rattle.sqlite.specs.Values.{bound};
ghost use Rattle.sqlite.specs.Held.{state};
ghost use Rattle.row_lemmas.specs.Selects.{IsSelect};
ghost use Rattle.acq_core.specs.declared.merchant.Merchant.{Merchant};
ghost use Rattle.acq_core.specs.Tables.{Tables};
ghost use Rattle.acq_core.specs.Known.{number_if};
ghost use Rattle.acq_core.specs.Numbers.{is_admitted_count};
ghost use Rattle.acq_core.specs.Pasts.{HasPast};
ghost use Rattle.acq_book.specs.Lookups.{merchant_at, admitted_at, pending_at};
ghost use Rattle.acq_book.specs.Lookups.{terminal_count_at, range_count_at, used_on_at};
ghost use Rattle.acq_book.specs.Lookups.{waiting_count_at};
ghost use Rattle.acq_sql_rows.specs.Relation.{Holds};
ghost use Rattle.acq_sql_reads.specs.Looked.{Answers, AnswersWhere, LooksOnly};
ghost use Rattle.acq_sql_reads.specs.Looked.{ShowsGreatest, TellsCount, count_up_to};
ghost use Rattle.acq_sql_reads.specs.Failing.{FailsOnlyExcused, FailsOnlyExcusedWhere};
ghost use Rattle.acq_sql_reads.specs.Failing.{FailsForMemory, IsEnrolled, IsEnrolledFrom};
ghost use Rattle.acq_sql_reads.specs.Failing.{IsTold};
ghost use Rattle.acq_sql_reads.specs.Shown.{FailsToHandOver, ShowsCount};

use crate::columns::{count_at, read, reference_if_at};
use crate::enrolments;
use acq_core::{AdmittedCount, FirstReference, Merchant};
use acq_message::{MerchantId, Reference};
use acq_sql_rows::day_value;
use day_totals::Day;
use sqlite::types::ValueRef;
use sqlite::{Alter, Connection, Error, ErrorCode, Row};

const PENDING: &str = "SELECT count(*) FROM requests WHERE status = 1 AND day = ?1";

const WAITING_COUNT: &str = "SELECT count(*) FROM requests WHERE status = 1";

const USED_ON: &str = "SELECT count(*) FROM requests WHERE admitted = 1 AND day = ?1";

const TERMINAL_COUNT: &str = "SELECT count(*) FROM terminals";

const RANGE_COUNT: &str = "SELECT count(*) FROM ranges";

const GREATEST_REFERENCE: &str = "SELECT reference FROM requests WHERE merchant = ?1 \
    ORDER BY reference DESC LIMIT 1";

/// How many requests of a day are pending, of all merchants.
pub fn pending<S: Alter>(conn: &mut Connection<S>, day: Day) -> Result<u64, Error>
    ensures answers { Answers (state S.Store conn.old) (state S.Store conn.new) result
        (λ t. pending_at t day) }
    ensures looks { LooksOnly (state S.Store conn.old) (state S.Store conn.new) (is_ok result) }
    ensures fails { FailsOnlyExcusedWhere (state S.Store conn.old) (state S.Store conn.new) result
        (λ t. IsTold (pending_at t day)) }
{
    count_by(conn, PENDING, &[day_value(day)])
}

/// How many requests wait for their issuer's answer, of all merchants and days.
pub fn waiting_count<S: Alter>(conn: &mut Connection<S>) -> Result<u64, Error>
    ensures answers { Answers (state S.Store conn.old) (state S.Store conn.new) result
        (λ t. waiting_count_at t) }
    ensures looks { LooksOnly (state S.Store conn.old) (state S.Store conn.new) (is_ok result) }
    ensures fails { FailsOnlyExcusedWhere (state S.Store conn.old) (state S.Store conn.new) result
        (λ t. IsTold (waiting_count_at t)) }
{
    count_by(conn, WAITING_COUNT, &[])
}

/// How many messages of all merchants count against the limit of a day.
pub fn used_on<S: Alter>(conn: &mut Connection<S>, day: Day) -> Result<u64, Error>
    ensures answers { Answers (state S.Store conn.old) (state S.Store conn.new) result
        (λ t. used_on_at t day) }
    ensures looks { LooksOnly (state S.Store conn.old) (state S.Store conn.new) (is_ok result) }
    ensures fails { FailsOnlyExcusedWhere (state S.Store conn.old) (state S.Store conn.new) result
        (λ t. IsTold (used_on_at t day)) }
{
    count_by(conn, USED_ON, &[day_value(day)])
}

/// How many terminals there are, of all merchants.
pub fn terminal_count<S: Alter>(conn: &mut Connection<S>) -> Result<u64, Error>
    ensures answers { Answers (state S.Store conn.old) (state S.Store conn.new) result
        (λ t. terminal_count_at t) }
    ensures looks { LooksOnly (state S.Store conn.old) (state S.Store conn.new) (is_ok result) }
    ensures fails { FailsOnlyExcusedWhere (state S.Store conn.old) (state S.Store conn.new) result
        (λ t. IsTold (terminal_count_at t)) }
{
    count_by(conn, TERMINAL_COUNT, &[])
}

/// How many ranges there are.
pub fn range_count<S: Alter>(conn: &mut Connection<S>) -> Result<u64, Error>
    ensures answers { Answers (state S.Store conn.old) (state S.Store conn.new) result
        (λ t. range_count_at t) }
    ensures looks { LooksOnly (state S.Store conn.old) (state S.Store conn.new) (is_ok result) }
    ensures fails { FailsOnlyExcusedWhere (state S.Store conn.old) (state S.Store conn.new) result
        (λ t. IsTold (range_count_at t)) }
{
    count_by(conn, RANGE_COUNT, &[])
}

/// The count that a query of count(*) tells.
fn count_by<S: Alter>(
    conn: &mut Connection<S>,
    sql: &str,
    params: &[ValueRef<'_>],
) -> Result<u64, Error>
    ensures answers { HasCleanDisk (state S.Store conn.new) → (many : ℕ)
        → ShowsCount sql.now (bound params.now) (state S.Store conn.old)
        (state S.Store conn.new) many
        → IfOk result (λ n. n ≡ many) }
    ensures looks { IsSelect sql.now
        → LooksOnly (state S.Store conn.old) (state S.Store conn.new) (is_ok result) }
    ensures fails { HasCleanDisk (state S.Store conn.new) → (many : ℕ)
        → ShowsCount sql.now (bound params.now) (state S.Store conn.old)
        (state S.Store conn.new) many
        → IsTold many → IfErr result (FailsToHandOver sql.now (bound params.now)
        (state S.Store conn.old) (state S.Store conn.new)) }
{
    let rows = count_rows(conn, sql, params)?;
    count_of(rows.as_slice())
}

/// The rows that it shows.
fn count_rows<S: Alter>(
    conn: &mut Connection<S>,
    sql: &str,
    params: &[ValueRef<'_>],
) -> Result<Vec<Row>, Error>
    ensures shows { HasCleanDisk (state S.Store conn.new) → IfOk result
        (λ rows. Shown sql.now (bound params.now) (state S.Store conn.old) (state S.Store conn.new)
        rows.items) }
    ensures looks { IsSelect sql.now
        → LooksOnly (state S.Store conn.old) (state S.Store conn.new) (is_ok result) }
    ensures fails { HasCleanDisk (state S.Store conn.new) → IfErr result
        (FailsToQuery sql.now (bound params.now) (state S.Store conn.old)
        (state S.Store conn.new)) }
{
    conn.query_all(sql, params)
}

/// The count that the one row of count(*) tells.
fn count_of(rows: &[Row]) -> Result<u64, Error>
    ensures value { IfOk result (λ n. (many : ℕ) → rows.now ≡ (count many ∷ []) ∷ [] → n ≡ many) }
    ensures fails { (many : ℕ) → rows.now ≡ (count many ∷ []) ∷ [] → IsTold many
        → FailsForMemory result }
{
    match rows.first() {
        Some(row) => count_at(row, 0),
        None => Err(Error::SqliteFailure(ErrorCode::DatabaseCorrupt)),
    }
}

/// The merchant with this name, and, if they are counted, how many of its requests were admitted:
/// so many references it has given.
pub fn merchant_and_admitted<S: Alter>(
    conn: &mut Connection<S>,
    id: MerchantId,
    counted: bool,
) -> Result<(Option<Merchant>, AdmittedCount), Error>
    ensures answers { AnswersWhere (state S.Store conn.old) (state S.Store conn.new) result
        HasPast (λ t. (merchant_at t id, number_if counted (admitted_at t id) (Some id))) }
    ensures looks { LooksOnly (state S.Store conn.old) (state S.Store conn.new) (is_ok result) }
    ensures fails { FailsOnlyExcused (state S.Store conn.old) (state S.Store conn.new) result }
{
    let Some(enrolled) = enrolments::merchant(conn, id)? else {
        return Ok((None, AdmittedCount::zero()));
    };
    if !counted {
        return Ok((Some(enrolled), AdmittedCount::zero()));
    }
    let admitted = admitted_of(conn, id, enrolled.first_reference)?;
    Ok((Some(enrolled), admitted))
}

/// How many requests were admitted of an enrolled merchant, whose first reference is this.
fn admitted_of<S: Alter>(
    conn: &mut Connection<S>,
    merchant: MerchantId,
    first: FirstReference,
) -> Result<AdmittedCount, Error>
    ensures answers { AnswersWhere (state S.Store conn.old) (state S.Store conn.new) result
        (λ t. HasPast t × IsEnrolledFrom merchant first t) (λ t. admitted_at t merchant) }
    ensures looks { LooksOnly (state S.Store conn.old) (state S.Store conn.new) (is_ok result) }
    ensures fails { FailsOnlyExcusedWhere (state S.Store conn.old) (state S.Store conn.new) result
        (IsEnrolledFrom merchant first) }
{
    let greatest = greatest_reference(conn, merchant)?;
    count_from(first, greatest)
}

/// How many references there are from the first up to the greatest, if one was given.
fn count_from(first: FirstReference, greatest: Option<Reference>) -> Result<AdmittedCount, Error>
    ensures value { IfOk result (λ n. n ≡ count_up_to first greatest) }
    ensures fails { IfErr result (λ e. IfSome greatest (λ n. first ≤ n)
        → is_admitted_count (count_up_to first greatest) ≢ true) }
{
    let count = match greatest {
        Some(greatest) => read(greatest.number().checked_sub(first.number()))? + 1,
        None => 0,
    };
    read(AdmittedCount::from_number(count))
}

/// The greatest reference of an enrolled merchant, if it has given one.
fn greatest_reference<S: Alter>(
    conn: &mut Connection<S>,
    merchant: MerchantId,
) -> Result<Option<Reference>, Error>
    ensures answers { HasCleanDisk (state S.Store conn.new) → (t : Tables)
        → Holds (state S.Store conn.old).now t → HasPast t → (enrolled : Merchant)
        → merchant_at t merchant ≡ Some enrolled → IfOk result
        (TellsCount enrolled.first_reference (admitted_at t merchant)) }
    ensures looks { LooksOnly (state S.Store conn.old) (state S.Store conn.new) (is_ok result) }
    ensures fails { FailsOnlyExcusedWhere (state S.Store conn.old) (state S.Store conn.new) result
        (IsEnrolled merchant) }
{
    let rows = greatest_rows(conn, merchant)?;
    match rows.first() {
        Some(row) => reference_if_at(row, 0),
        None => Ok(None),
    }
}

/// The row of that reference, if the merchant has a request.
fn greatest_rows<S: Alter>(
    conn: &mut Connection<S>,
    merchant: MerchantId,
) -> Result<Vec<Row>, Error>
    ensures answers { HasCleanDisk (state S.Store conn.new) → (t : Tables)
        → Holds (state S.Store conn.old).now t → HasPast t → (enrolled : Merchant)
        → merchant_at t merchant ≡ Some enrolled → IfOk result
        (λ rows. ShowsGreatest enrolled.first_reference (admitted_at t merchant) rows.items) }
    ensures looks { LooksOnly (state S.Store conn.old) (state S.Store conn.new) (is_ok result) }
    ensures fails { FailsOnlyExcused (state S.Store conn.old) (state S.Store conn.new) result }
{
    let merchant = merchant.to_bytes();
    conn.query_all(GREATEST_REFERENCE, &[ValueRef::Text(&merchant)])
}
