//! Ranges.

ghost use Rattle.sqlite.specs.Held.{state};
ghost use Rattle.acq_sql_writes.specs.Written.{WritesInside, Changes, with_added_range};
ghost use Rattle.acq_sql_writes.specs.Written.{with_dropped_range};
ghost use Rattle.acq_sql_writes.specs.Refused.{AnyTables, HasTables, TakesRange};
ghost use Rattle.acq_sql_writes.specs.Widened.{IsNeverRefused};

use crate::statement::execute;
use acq_sql_rows::{short_value, texts};
use card_no::Range;
use sqlite::types::ValueRef;
use sqlite::{Alter, Connection, Error};

/// Adds a range.
pub fn add_range<S: Alter>(conn: &mut Connection<S>, range: &Range) -> Result<(), Error>
    ensures writes { WritesInside (state S.Store conn.old) (state S.Store conn.new)
        result (Changes (with_added_range range.now)) }
    ensures fails { IsNeverRefused (state S.Store conn.old)
        (state S.Store conn.new) result (HasTables (TakesRange range.now)) }
{
    execute(
        conn,
        texts::ADD_RANGE,
        &[
            short_value(range.low),
            short_value(range.high),
            ValueRef::Text(range.issuer.as_bytes()),
            short_value(range.hold_days as u32),
        ],
    )
}

/// Drops the range with these ends.
pub fn drop_range<S: Alter>(conn: &mut Connection<S>, low: u32, high: u32) -> Result<(), Error>
    ensures writes { WritesInside (state S.Store conn.old) (state S.Store conn.new)
        result (Changes (with_dropped_range low high)) }
    ensures fails { IsNeverRefused (state S.Store conn.old)
        (state S.Store conn.new) result (HasTables AnyTables) }
{
    execute(
        conn,
        texts::DROP_RANGE,
        &[short_value(low), short_value(high)],
    )
}
