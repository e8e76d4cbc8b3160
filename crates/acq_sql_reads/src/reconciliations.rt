//! Reconciliations.

ghost use Rattle.std.specs.Prelude.{◌≡◌, IfOk, is_ok, length, option_map};
ghost use Rattle.std.specs.Option.{option_to_list};
ghost use Rattle.sqlite.specs.State.{HasCleanDisk};
ghost use Rattle.sqlite.specs.Held.{state};
ghost use Rattle.acq_core.specs.Tables.{Tables};
ghost use Rattle.acq_core.specs.Pasts.{HasPast};
ghost use Rattle.acq_sql_rows.specs.Relation.{Holds};
ghost use Rattle.acq_sql_reads.specs.Looked.{AnswersWhere, LooksOnly, balance_cells};
ghost use Rattle.acq_sql_reads.specs.Looked.{last_numbered_at};
ghost use Rattle.acq_sql_reads.specs.Failing.{FailsForMemory, FailsOnlyExcused, IsBalanceRow};

use crate::columns::bit_at;
use acq_core::Reconciliation;
use acq_message::MerchantId;
use acq_sql_rows::day_value;
use day_totals::Day;
use sqlite::types::ValueRef;
use sqlite::{Alter, Connection, Error, Row};

const LAST_RECONCILIATION: &str = "SELECT number, in_balance FROM reconciliations WHERE day = ?1 \
    AND merchant = ?2 ORDER BY number DESC LIMIT 1";

/// The merchant's last reconciliation of a day, with its number.
pub fn last_reconciliation<S: Alter>(
    conn: &mut Connection<S>,
    merchant: MerchantId,
    day: Day,
) -> Result<Option<(u64, Reconciliation)>, Error>
    ensures answers { AnswersWhere (state S.Store conn.old) (state S.Store conn.new) result
        HasPast (λ t. last_numbered_at t merchant day) }
    ensures looks { LooksOnly (state S.Store conn.old) (state S.Store conn.new) (is_ok result) }
    ensures fails { FailsOnlyExcused (state S.Store conn.old) (state S.Store conn.new) result }
{
    let rows = last_rows(conn, merchant, day)?;
    match rows.first() {
        Some(row) => Ok(Some(read_reconciliation(row, merchant, day)?)),
        None => Ok(None),
    }
}

/// The row of that reconciliation, if there is one.
fn last_rows<S: Alter>(
    conn: &mut Connection<S>,
    merchant: MerchantId,
    day: Day,
) -> Result<Vec<Row>, Error>
    ensures answers { HasCleanDisk (state S.Store conn.new) → (t : Tables)
        → Holds (state S.Store conn.old).now t → HasPast t → IfOk result (λ rows. rows.items
        ≡ option_to_list (option_map balance_cells (last_numbered_at t merchant day))) }
    ensures looks { LooksOnly (state S.Store conn.old) (state S.Store conn.new) (is_ok result) }
    ensures fails { FailsOnlyExcused (state S.Store conn.old) (state S.Store conn.new) result }
{
    let merchant = merchant.to_bytes();
    conn.query_all(
        LAST_RECONCILIATION,
        &[day_value(day), ValueRef::Text(&merchant)],
    )
}

fn read_reconciliation(
    row: &Row,
    merchant: MerchantId,
    day: Day,
) -> Result<(u64, Reconciliation), Error>
    ensures value { IfOk result (λ x. (x.1.merchant ≡ merchant) × (x.1.day ≡ day)
        × (length row.now ≡ 2 → row.now ≡ balance_cells x)) }
    ensures fails { IsBalanceRow row.now → FailsForMemory result }
{
    let number = row.get(0)?;
    let in_balance = bit_at(row, 1)?;
    Ok((
        number,
        Reconciliation {
            merchant,
            day,
            in_balance,
        },
    ))
}
