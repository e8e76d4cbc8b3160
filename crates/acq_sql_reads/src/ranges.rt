//! Ranges of card prefixes.

ghost use Rattle.std.specs.Prelude.{◌≡◌, true, IfOk, is_ok, length, option_map};
ghost use Rattle.std.specs.Option.{option_to_list};
ghost use Rattle.sqlite.specs.State.{HasCleanDisk};
ghost use Rattle.sqlite.specs.Held.{state};
ghost use Rattle.sqlite_value.specs.Order.{column};
ghost use Rattle.row_lemmas.specs.Values.{number};
ghost use Rattle.card_no.specs.Ranges.{are_apart};
ghost use Rattle.acq_core.specs.Tables.{Tables};
ghost use Rattle.acq_book.specs.Lookups.{range_at, overlapping_at};
ghost use Rattle.acq_sql_rows.specs.Relation.{Holds};
ghost use Rattle.acq_sql_reads.specs.Looked.{AnswersWhere, LooksOnly, IsNearest, ReachFrom};
ghost use Rattle.acq_sql_reads.specs.Looked.{range_cells};
ghost use Rattle.acq_sql_reads.specs.Failing.{FailsForMemory, FailsOnlyExcused};
ghost use Rattle.acq_sql_reads.specs.Failing.{FailsOnlyExcusedWhere, IsRangeRow};

use crate::columns::{hold_days_at, issuer_at};
use acq_sql_rows::short_value;
use card_no::{Prefix, Range};
use sqlite::{Alter, Connection, Error, Row};
use std::alloc::Global;

const NEAREST: &str = "SELECT low, high, issuer, hold_days FROM ranges WHERE low <= ?1 \
    ORDER BY low DESC LIMIT 1";

const OVERLAPPING: &str = "SELECT low, high, issuer, hold_days FROM ranges WHERE ?1 <= low \
    AND ?2 <= high AND low <= ?3 ORDER BY low LIMIT 1";

/// The range that holds a prefix, of ranges of which no two overlap.
pub fn range<S: Alter>(
    conn: &mut Connection<S>,
    alloc: Global,
    prefix: Prefix,
) -> Result<Option<Range>, Error>
    ensures answers { AnswersWhere (state S.Store conn.old) (state S.Store conn.new) result
        (λ t. are_apart t.ranges ≡ true) (λ t. range_at t prefix) }
    ensures looks { LooksOnly (state S.Store conn.old) (state S.Store conn.new) (is_ok result) }
    ensures fails { FailsOnlyExcused (state S.Store conn.old) (state S.Store conn.new) result }
{
    let rows = nearest_rows(conn, prefix.number())?;
    let Some(row) = rows.first() else {
        return Ok(None);
    };
    let range = read_range(alloc, row)?;
    if range.holds(prefix) {
        Ok(Some(range))
    } else {
        Ok(None)
    }
}

/// The nearest range that begins at or below a prefix's number.
fn nearest_rows<S: Alter>(conn: &mut Connection<S>, prefix: u32) -> Result<Vec<Row>, Error>
    ensures answers { HasCleanDisk (state S.Store conn.new) → (t : Tables)
        → Holds (state S.Store conn.old).now t → are_apart t.ranges ≡ true → IfOk result
        (λ rows. IsNearest prefix t.ranges rows.items) }
    ensures looks { LooksOnly (state S.Store conn.old) (state S.Store conn.new) (is_ok result) }
    ensures fails { FailsOnlyExcused (state S.Store conn.old) (state S.Store conn.new) result }
{
    conn.query_all(NEAREST, &[short_value(prefix)])
}

/// Of the ranges that overlap these ends, the one of least low, of ranges of which no two overlap.
pub fn overlapping<S: Alter>(
    conn: &mut Connection<S>,
    alloc: Global,
    low: u32,
    high: u32,
) -> Result<Option<Range>, Error>
    ensures answers { AnswersWhere (state S.Store conn.old) (state S.Store conn.new) result
        (λ t. are_apart t.ranges ≡ true) (λ t. overlapping_at t low high) }
    ensures looks { LooksOnly (state S.Store conn.old) (state S.Store conn.new) (is_ok result) }
    ensures fails { FailsOnlyExcused (state S.Store conn.old) (state S.Store conn.new) result }
{
    let first = first_low(conn, low)?;
    overlapping_from(conn, alloc, first, low, high)
}

/// A low at or above which each range begins that reaches up to a number: that of the nearest one
/// at or below the number, since those before it end below. So no look-up passes over these.
fn first_low<S: Alter>(conn: &mut Connection<S>, number: u32) -> Result<u32, Error>
    ensures answers { HasCleanDisk (state S.Store conn.new) → (t : Tables)
        → Holds (state S.Store conn.old).now t → are_apart t.ranges ≡ true
        → IfOk result (ReachFrom number t.ranges) }
    ensures looks { LooksOnly (state S.Store conn.old) (state S.Store conn.new) (is_ok result) }
    ensures fails { FailsOnlyExcused (state S.Store conn.old) (state S.Store conn.new) result }
{
    let rows = nearest_rows(conn, number)?;
    match rows.first() {
        Some(row) => low_of(row),
        None => Ok(0),
    }
}

/// The low of a range's row.
fn low_of(row: &Row) -> Result<u32, Error>
    ensures value { IfOk result (λ low. column row.now 0 ≡ number low) }
    ensures fails { IsRangeRow row.now → FailsForMemory result }
{
    row.get(0)
}

/// Of the ranges that overlap these ends, the one of least low. None that reaches up to the lower
/// end begins below the first.
fn overlapping_from<S: Alter>(
    conn: &mut Connection<S>,
    alloc: Global,
    first: u32,
    low: u32,
    high: u32,
) -> Result<Option<Range>, Error>
    ensures answers { AnswersWhere (state S.Store conn.old) (state S.Store conn.new) result
        (λ t. ReachFrom low t.ranges first) (λ t. overlapping_at t low high) }
    ensures looks { LooksOnly (state S.Store conn.old) (state S.Store conn.new) (is_ok result) }
    ensures fails { FailsOnlyExcusedWhere (state S.Store conn.old) (state S.Store conn.new) result
        (λ t. ReachFrom low t.ranges first) }
{
    let rows = overlapping_rows(conn, first, low, high)?;
    match rows.first() {
        Some(row) => Ok(Some(read_range(alloc, row)?)),
        None => Ok(None),
    }
}

/// The row of that range, if there is one.
fn overlapping_rows<S: Alter>(
    conn: &mut Connection<S>,
    first: u32,
    low: u32,
    high: u32,
) -> Result<Vec<Row>, Error>
    ensures answers { HasCleanDisk (state S.Store conn.new) → (t : Tables)
        → Holds (state S.Store conn.old).now t → ReachFrom low t.ranges first → IfOk result
        (λ rows. rows.items ≡ option_to_list (option_map range_cells (overlapping_at t low high))) }
    ensures looks { LooksOnly (state S.Store conn.old) (state S.Store conn.new) (is_ok result) }
    ensures fails { FailsOnlyExcused (state S.Store conn.old) (state S.Store conn.new) result }
{
    conn.query_all(
        OVERLAPPING,
        &[short_value(first), short_value(low), short_value(high)],
    )
}

/// The range of a row with the four columns.
pub fn read_range(alloc: Global, row: &Row) -> Result<Range, Error>
    ensures value { IfOk result (λ r. length row.now ≡ 4 → row.now ≡ range_cells r) }
    ensures fails { IsRangeRow row.now → FailsForMemory result }
{
    Ok(Range {
        low: row.get(0)?,
        high: row.get(1)?,
        issuer: issuer_at(alloc, row, 2)?,
        hold_days: hold_days_at(row, 3)?,
    })
}
