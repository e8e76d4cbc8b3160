//! The business day, and reconciliations.

ghost use Rattle.std.specs.Prelude.{◌<◌, ◌^◌};
ghost use Rattle.sqlite.specs.Held.{state};
ghost use Rattle.acq_sql_writes.specs.Written.{WritesInside, Changes, on_day, with_reconciliation};
ghost use Rattle.acq_sql_writes.specs.Refused.{AnyTables, HasTables, TakesReconciliation};
ghost use Rattle.acq_sql_writes.specs.Widened.{IsNeverRefused};

use crate::statement::execute;
use acq_core::Reconciliation;
use acq_sql_rows::{bit_value, day_value, number_value, texts};
use day_totals::Day;
use sqlite::types::ValueRef;
use sqlite::{Alter, Connection, Error};

/// Begins a business day.
pub fn set_day<S: Alter>(conn: &mut Connection<S>, day: Day) -> Result<(), Error>
    ensures writes { WritesInside (state S.Store conn.old) (state S.Store conn.new)
        result (Changes (on_day day)) }
    ensures fails { IsNeverRefused (state S.Store conn.old)
        (state S.Store conn.new) result (HasTables AnyTables) }
{
    execute(conn, texts::SET_DAY, &[day_value(day)])
}

/// Adds a reconciliation, with its number of the merchant and day.
pub fn add_reconciliation<S: Alter>(
    conn: &mut Connection<S>,
    number: u64,
    reconciliation: &Reconciliation,
) -> Result<(), Error>
    requires { number < 2 ^ 63 }
    ensures writes { WritesInside (state S.Store conn.old) (state S.Store conn.new)
        result (Changes (with_reconciliation number reconciliation.now)) }
    ensures fails { IsNeverRefused (state S.Store conn.old)
        (state S.Store conn.new) result
        (HasTables (TakesReconciliation number reconciliation.now)) }
{
    let merchant = reconciliation.merchant.to_bytes();
    execute(
        conn,
        texts::ADD_RECONCILIATION,
        &[
            ValueRef::Text(&merchant),
            day_value(reconciliation.day),
            number_value(number),
            bit_value(reconciliation.in_balance),
        ],
    )
}
