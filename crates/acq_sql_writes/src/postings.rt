//! Postings.

ghost use Rattle.std.specs.Prelude.{◌<◌, ◌^◌};
ghost use Rattle.sqlite.specs.Held.{state};
ghost use Rattle.acq_sql_writes.specs.Written.{WritesInside, Changes, with_posting};
ghost use Rattle.acq_sql_writes.specs.Widened.{IsNeverRefused};
ghost use Rattle.acq_sql_writes.specs.Refused.{HasTables, TakesPosting};

use crate::statement::execute;
use acq_core::Posting;
use acq_sql_rows::{amount_value, day_value, leg_value, number_value, reference_value, texts};
use sqlite::types::ValueRef;
use sqlite::{Alter, Connection, Error};

/// Adds a posting, with its number of the merchant and day.
pub fn add_posting<S: Alter>(
    conn: &mut Connection<S>,
    number: u64,
    posting: &Posting,
) -> Result<(), Error>
    requires { number < 2 ^ 63 }
    ensures writes { WritesInside (state S.Store conn.old) (state S.Store conn.new)
        result (Changes (with_posting number posting.now)) }
    ensures fails { IsNeverRefused (state S.Store conn.old)
        (state S.Store conn.new) result (HasTables (TakesPosting number posting.now)) }
{
    let merchant = posting.merchant.to_bytes();
    let terminal = posting.terminal.to_bytes();
    let trace = posting.trace.to_bytes();
    execute(
        conn,
        texts::ADD_POSTING,
        &[
            ValueRef::Text(&merchant),
            day_value(posting.day),
            number_value(number),
            leg_value(posting.leg),
            amount_value(posting.amount),
            reference_value(posting.reference),
            ValueRef::Text(posting.card.as_bytes()),
            ValueRef::Text(&terminal),
            ValueRef::Text(&trace),
        ],
    )
}
