//! Cutover.

ghost use Rattle.sqlite.specs.Held.{state};
ghost use Rattle.acq_core.specs.declared.change.Change.TheVariants as change;
ghost use Rattle.acq_sql_writes.specs.Written.{on_day};
ghost use Rattle.acq_sql_changes.specs.Transactions.{ChangesInside};
ghost use Rattle.acq_sql_writes.specs.Refused.{AnyTables};
ghost use Rattle.acq_sql_changes.specs.Refused.{FailsInside};

use acq_sql_writes::set_day;
use day_totals::Day;
use sqlite::{Alter, Connection, Error};

/// Begins a business day.
pub fn cut_over<S: Alter>(conn: &mut Connection<S>, day: Day) -> Result<(), Error>
    ensures changes { ChangesInside (state S.Store conn.old) (state S.Store conn.new) result
        AnyTables (on_day day) }
    ensures fails { FailsInside (state S.Store conn.old) (state S.Store conn.new) result
        (change.SetDay day) AnyTables }
{
    set_day(conn, day)
}
