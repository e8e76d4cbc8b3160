//! Merchants and terminals.

ghost use Rattle.sqlite.specs.Held.{state};
ghost use Rattle.acq_sql_writes.specs.Written.{WritesInside, Changes, with_merchant, with_terminal};
ghost use Rattle.acq_sql_writes.specs.Widened.{IsNeverRefused};
ghost use Rattle.acq_sql_writes.specs.Refused.{HasTables, TakesMerchant, TakesTerminal};

use crate::statement::execute;
use acq_core::{Merchant, Terminal};
use acq_sql_rows::{first_reference_value, texts};
use sqlite::types::ValueRef;
use sqlite::{Alter, Connection, Error};

/// Adds a merchant.
pub fn add_merchant<S: Alter>(conn: &mut Connection<S>, merchant: &Merchant) -> Result<(), Error>
    ensures writes { WritesInside (state S.Store conn.old) (state S.Store conn.new)
        result (Changes (with_merchant merchant.now)) }
    ensures fails { IsNeverRefused (state S.Store conn.old)
        (state S.Store conn.new) result (HasTables (TakesMerchant merchant.now)) }
{
    let id = merchant.id.to_bytes();
    let currency = merchant.currency.to_bytes();
    execute(
        conn,
        texts::ADD_MERCHANT,
        &[
            ValueRef::Text(&id),
            ValueRef::Text(&currency),
            first_reference_value(merchant.first_reference),
        ],
    )
}

/// Adds a terminal.
pub fn add_terminal<S: Alter>(conn: &mut Connection<S>, terminal: &Terminal) -> Result<(), Error>
    ensures writes { WritesInside (state S.Store conn.old) (state S.Store conn.new)
        result (Changes (with_terminal terminal.now)) }
    ensures fails { IsNeverRefused (state S.Store conn.old)
        (state S.Store conn.new) result (HasTables (TakesTerminal terminal.now)) }
{
    let merchant = terminal.merchant.to_bytes();
    let id = terminal.id.to_bytes();
    execute(
        conn,
        texts::ADD_TERMINAL,
        &[ValueRef::Text(&merchant), ValueRef::Text(&id)],
    )
}
