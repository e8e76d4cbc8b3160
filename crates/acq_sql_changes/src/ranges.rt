//! Ranges.

ghost use Rattle.sqlite.specs.Held.{state};
ghost use Rattle.acq_core.specs.declared.change.Change.TheVariants as change;
ghost use Rattle.acq_sql_writes.specs.Written.{with_added_range, with_dropped_range};
ghost use Rattle.acq_sql_changes.specs.Transactions.{ChangesInside};
ghost use Rattle.acq_sql_writes.specs.Refused.{AnyTables};
ghost use Rattle.acq_sql_changes.specs.Refused.{FailsInside};

use card_no::Range;
use sqlite::{Alter, Connection, Error};

/// Adds a range.
pub fn add_range<S: Alter>(conn: &mut Connection<S>, range: &Range) -> Result<(), Error>
    ensures changes { ChangesInside (state S.Store conn.old) (state S.Store conn.new) result
        AnyTables (with_added_range range.now) }
    ensures fails { FailsInside (state S.Store conn.old) (state S.Store conn.new) result
        (change.AddRange range.now) AnyTables }
{
    acq_sql_writes::add_range(conn, range)
}

/// Drops the range with these ends.
pub fn drop_range<S: Alter>(conn: &mut Connection<S>, low: u32, high: u32) -> Result<(), Error>
    ensures changes { ChangesInside (state S.Store conn.old) (state S.Store conn.new) result
        AnyTables (with_dropped_range low high) }
    ensures fails { FailsInside (state S.Store conn.old) (state S.Store conn.new) result
        (change.DropRange low high) AnyTables }
{
    acq_sql_writes::drop_range(conn, low, high)
}
