//! The running totals of a merchant's day.

ghost use Rattle.std.specs.Prelude.{◌≡◌, ◌∷◌, IfOk, is_ok, length};
ghost use Rattle.sqlite_value.specs.Order.{column};
ghost use Rattle.sqlite.specs.State.{HasCleanDisk};
ghost use Rattle.sqlite.specs.Held.{state};
ghost use Rattle.acq_core.specs.Tables.{Tables};
ghost use Rattle.acq_book.specs.Lookups.{used_at, totals_at};
ghost use Rattle.acq_sql_rows.specs.Tallies.{tally_of};
ghost use Rattle.acq_sql_rows.specs.Relation.{Holds};
ghost use Rattle.acq_sql_reads.specs.Looked.{Answers, LooksOnly, ShowsTally, totals_row};
ghost use Rattle.acq_sql_reads.specs.Failing.{FailsForMemory, FailsOnlyExcused, IsTallyRow};

use crate::columns::{read, used_count_at};
use acq_core::UsedCount;
use acq_message::MerchantId;
use acq_sql_rows::day_value;
use day_totals::{Day, Totals};
use sqlite::types::ValueRef;
use sqlite::{Alter, Connection, Error, Row};

const TOTALS_AND_USED: &str = "SELECT used, credits, credit_reversals, debits, debit_reversals, \
    credit_amount, credit_reversal_amount, debit_amount, debit_reversal_amount FROM running \
    WHERE merchant = ?1 AND day = ?2";

/// How many of the merchant's messages count against the limit of a day.
pub fn used<S: Alter>(
    conn: &mut Connection<S>,
    merchant: MerchantId,
    day: Day,
) -> Result<UsedCount, Error>
    ensures answers { Answers (state S.Store conn.old) (state S.Store conn.new) result
        (λ t. used_at t merchant day) }
    ensures looks { LooksOnly (state S.Store conn.old) (state S.Store conn.new) (is_ok result) }
    ensures fails { FailsOnlyExcused (state S.Store conn.old) (state S.Store conn.new) result }
{
    let rows = running_rows(conn, merchant, day)?;
    match rows.first() {
        Some(row) => used_count_at(row, 0),
        None => read(UsedCount::from_number(0)),
    }
}

/// The merchant's totals of a day.
pub fn totals<S: Alter>(
    conn: &mut Connection<S>,
    merchant: MerchantId,
    day: Day,
) -> Result<Totals, Error>
    ensures answers { Answers (state S.Store conn.old) (state S.Store conn.new) result
        (λ t. totals_at t merchant day) }
    ensures looks { LooksOnly (state S.Store conn.old) (state S.Store conn.new) (is_ok result) }
    ensures fails { FailsOnlyExcused (state S.Store conn.old) (state S.Store conn.new) result }
{
    let rows = running_rows(conn, merchant, day)?;
    match rows.first() {
        Some(row) => read_totals(row),
        None => Ok(Totals::zero()),
    }
}

/// The day's row, if there is one: what was used, four counts and four amounts.
fn running_rows<S: Alter>(
    conn: &mut Connection<S>,
    merchant: MerchantId,
    day: Day,
) -> Result<Vec<Row>, Error>
    ensures answers { HasCleanDisk (state S.Store conn.new) → (t : Tables)
        → Holds (state S.Store conn.old).now t → IfOk result
        (λ rows. ShowsTally (tally_of t merchant day) rows.items) }
    ensures looks { LooksOnly (state S.Store conn.old) (state S.Store conn.new) (is_ok result) }
    ensures fails { FailsOnlyExcused (state S.Store conn.old) (state S.Store conn.new) result }
{
    let merchant = merchant.to_bytes();
    conn.query_all(
        TOTALS_AND_USED,
        &[ValueRef::Text(&merchant), day_value(day)],
    )
}

fn read_totals(row: &Row) -> Result<Totals, Error>
    ensures value { IfOk result
        (λ totals. length row.now ≡ 9 → row.now ≡ column row.now 0 ∷ totals_row totals) }
    ensures fails { IsTallyRow row.now → FailsForMemory result }
{
    let counts = [row.get(1)?, row.get(2)?, row.get(3)?, row.get(4)?];
    let amounts = [row.get(5)?, row.get(6)?, row.get(7)?, row.get(8)?];
    read(Totals::from_parts(counts, amounts))
}
