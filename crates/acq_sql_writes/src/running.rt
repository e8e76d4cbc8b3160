//! Running totals.

ghost use Rattle.std.specs.Prelude.{◌≡◌, ◌<◌, ◌^◌};
ghost use Rattle.sqlite_value.specs.Value.{owned};
ghost use Rattle.sqlite.specs.Held.{state};
ghost use Rattle.row_lemmas.specs.Values.{number};
ghost use Rattle.day_totals.specs.Totals.{total_for};
ghost use Rattle.acq_sql_writes.specs.Written.{WritesInside, Raises, tally_from};
ghost use Rattle.acq_sql_writes.specs.Widened.{IsNeverRefused};
ghost use Rattle.acq_sql_writes.specs.Refused.{HasRuns, TakesMore};
ghost use Rattle.acq_sql_writes.specs.Apart.{FailsApart};

use crate::statement::execute;
use acq_core::MerchantId;
use acq_sql_rows::{day_value, number_value, texts};
use day_totals::{Day, Leg, Totals};
use sqlite::types::ValueRef;
use sqlite::{Alter, Connection, Error};

/// Adds what came to the running totals of a merchant and day: how many messages that count against
/// its limit, and postings.
pub fn raise<S: Alter>(
    conn: &mut Connection<S>,
    merchant: MerchantId,
    day: Day,
    used: u64,
    posted: &Totals,
) -> Result<(), Error>
    requires { used < 2 ^ 63 }
    ensures writes { WritesInside (state S.Store conn.old) (state S.Store conn.new)
        result (Raises merchant day (tally_from used posted.now)) }
    ensures fails { IsNeverRefused (state S.Store conn.old)
        (state S.Store conn.new) result
        (HasRuns (TakesMore merchant day (tally_from used posted.now))) }
    ensures apart { FailsApart (state S.Store conn.old) (state S.Store conn.new) result }
{
    let merchant = merchant.to_bytes();
    execute(
        conn,
        texts::RAISE,
        &[
            ValueRef::Text(&merchant),
            day_value(day),
            number_value(used),
            count_value(posted, Leg::Credit),
            count_value(posted, Leg::CreditReversal),
            count_value(posted, Leg::Debit),
            count_value(posted, Leg::DebitReversal),
            sum_value(posted, Leg::Credit),
            sum_value(posted, Leg::CreditReversal),
            sum_value(posted, Leg::Debit),
            sum_value(posted, Leg::DebitReversal),
        ],
    )
}

/// How many postings of a leg there are.
fn count_value(totals: &Totals, leg: Leg) -> ValueRef<'static>
    ensures { owned result ≡ number (total_for totals.now leg).count }
{
    number_value(totals.count(leg))
}

/// What the postings of a leg come to.
fn sum_value(totals: &Totals, leg: Leg) -> ValueRef<'static>
    ensures { owned result ≡ number (total_for totals.now leg).amount }
{
    number_value(totals.amount(leg))
}
