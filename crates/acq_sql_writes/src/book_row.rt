//! The book's row.

ghost use Rattle.std.specs.Prelude.{◌≡◌};
ghost use Rattle.sqlite.specs.Held.{state};
ghost use Rattle.acq_sql_writes.specs.Written.{WritesGuarded, BeginsBook};
ghost use Rattle.acq_sql_writes.specs.Widened.{IsNeverRefused};
ghost use Rattle.acq_sql_writes.specs.Refused.{IsEmptyBook};

use crate::statement::execute_in;
use acq_core::Limit;
use acq_sql_rows::tables::VERSION;
use acq_sql_rows::{day_value, short_value, texts};
use day_totals::Day;
use sqlite::{Alter, Error, Transaction};

/// Writes the row of a new book: how many messages of a merchant a day admits, and the first
/// business day.
pub fn add_book<S: Alter>(
    tx: &mut Transaction<'_, S>,
    limit: Limit,
    first_day: Day,
) -> Result<(), Error>
    ensures same_reference { tx.new.conn.ghost_name ≡ tx.old.conn.ghost_name }
    ensures writes { WritesGuarded (state S.Store tx.old.conn.now) (state S.Store tx.new.conn.now)
        result (BeginsBook (record { limit = limit; first_day = first_day })) }
    ensures fails { IsNeverRefused (state S.Store tx.old.conn.now)
        (state S.Store tx.new.conn.now) result IsEmptyBook }
{
    execute_in(
        tx,
        texts::ADD_BOOK,
        &[
            short_value(VERSION),
            short_value(limit.number()),
            day_value(first_day),
        ],
    )
}
