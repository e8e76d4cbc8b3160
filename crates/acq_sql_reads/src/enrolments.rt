//! Enrolled merchants and their terminals.

ghost use Rattle.std.specs.Prelude.{◌≡◌, IfOk, is_ok, length, option_map};
ghost use Rattle.std.specs.Option.{option_to_list};
ghost use Rattle.sqlite.specs.State.{HasCleanDisk};
ghost use Rattle.sqlite.specs.Held.{state};
ghost use Rattle.acq_core.specs.Tables.{Tables};
ghost use Rattle.acq_book.specs.Lookups.{merchant_at, has_terminal_at};
ghost use Rattle.acq_sql_rows.specs.Rows.{merchant_row, terminal_row};
ghost use Rattle.acq_sql_rows.specs.Relation.{Holds};
ghost use Rattle.acq_sql_reads.specs.Looked.{Answers, LooksOnly, is_any};
ghost use Rattle.acq_sql_reads.specs.Failing.{FailsForMemory, FailsOnlyExcused, IsMerchantRow};
ghost use Rattle.acq_sql_reads.specs.Failing.{IsTerminalRow};

use crate::columns::{currency_at, first_reference_at, merchant_at, terminal_at};
use acq_core::{Merchant, Terminal};
use acq_message::{MerchantId, TerminalId};
use sqlite::types::ValueRef;
use sqlite::{Alter, Connection, Error, Row};

const MERCHANT: &str = "SELECT merchant, currency, first FROM merchants WHERE merchant = ?1";

const TERMINAL: &str = "SELECT merchant, terminal FROM terminals WHERE merchant = ?1 \
    AND terminal = ?2";

/// The merchant with this name.
pub fn merchant<S: Alter>(
    conn: &mut Connection<S>,
    id: MerchantId,
) -> Result<Option<Merchant>, Error>
    ensures answers { Answers (state S.Store conn.old) (state S.Store conn.new) result
        (λ t. merchant_at t id) }
    ensures looks { LooksOnly (state S.Store conn.old) (state S.Store conn.new) (is_ok result) }
    ensures fails { FailsOnlyExcused (state S.Store conn.old) (state S.Store conn.new) result }
{
    let rows = merchant_rows(conn, id)?;
    match rows.first() {
        Some(row) => Ok(Some(read_merchant(row)?)),
        None => Ok(None),
    }
}

/// The merchant's row, if there is one.
fn merchant_rows<S: Alter>(conn: &mut Connection<S>, id: MerchantId) -> Result<Vec<Row>, Error>
    ensures answers { HasCleanDisk (state S.Store conn.new) → (t : Tables)
        → Holds (state S.Store conn.old).now t → IfOk result
        (λ rows. rows.items ≡ option_to_list (option_map merchant_row (merchant_at t id))) }
    ensures looks { LooksOnly (state S.Store conn.old) (state S.Store conn.new) (is_ok result) }
    ensures fails { FailsOnlyExcused (state S.Store conn.old) (state S.Store conn.new) result }
{
    let id = id.to_bytes();
    conn.query_all(MERCHANT, &[ValueRef::Text(&id)])
}

/// The merchant of a row with the three columns.
pub fn read_merchant(row: &Row) -> Result<Merchant, Error>
    ensures value { IfOk result (λ m. length row.now ≡ 3 → row.now ≡ merchant_row m) }
    ensures fails { IsMerchantRow row.now → FailsForMemory result }
{
    Ok(Merchant {
        id: merchant_at(row, 0)?,
        currency: currency_at(row, 1)?,
        first_reference: first_reference_at(row, 2)?,
    })
}

/// Whether the merchant has this terminal.
pub fn has_terminal<S: Alter>(
    conn: &mut Connection<S>,
    merchant: MerchantId,
    id: TerminalId,
) -> Result<bool, Error>
    ensures answers { Answers (state S.Store conn.old) (state S.Store conn.new) result
        (λ t. has_terminal_at t merchant id) }
    ensures looks { LooksOnly (state S.Store conn.old) (state S.Store conn.new) (is_ok result) }
    ensures fails { FailsOnlyExcused (state S.Store conn.old) (state S.Store conn.new) result }
{
    let rows = terminal_rows(conn, merchant, id)?;
    Ok(!rows.is_empty())
}

/// The terminal's row, if there is one.
fn terminal_rows<S: Alter>(
    conn: &mut Connection<S>,
    merchant: MerchantId,
    id: TerminalId,
) -> Result<Vec<Row>, Error>
    ensures answers { HasCleanDisk (state S.Store conn.new) → (t : Tables)
        → Holds (state S.Store conn.old).now t → IfOk result
        (λ rows. is_any rows.items ≡ has_terminal_at t merchant id) }
    ensures looks { LooksOnly (state S.Store conn.old) (state S.Store conn.new) (is_ok result) }
    ensures fails { FailsOnlyExcused (state S.Store conn.old) (state S.Store conn.new) result }
{
    let merchant = merchant.to_bytes();
    let id = id.to_bytes();
    conn.query_all(TERMINAL, &[ValueRef::Text(&merchant), ValueRef::Text(&id)])
}

/// The terminal of a row with the two columns.
pub fn read_terminal(row: &Row) -> Result<Terminal, Error>
    ensures value { IfOk result (λ x. length row.now ≡ 2 → row.now ≡ terminal_row x) }
    ensures fails { IsTerminalRow row.now → FailsForMemory result }
{
    Ok(Terminal {
        merchant: merchant_at(row, 0)?,
        id: terminal_at(row, 1)?,
    })
}
