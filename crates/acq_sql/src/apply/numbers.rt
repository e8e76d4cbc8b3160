//! The numbers that postings and reconciliations get.

ghost use Rattle.std.specs.Prelude.{◌≡◌, ◌↔◌, ◌+◌, ◌<◌, ◌≤◌, ◌^◌, Err, IfOk, IsOk, OnErr, is_ok};
ghost use Rattle.sqlite.specs.declared.error.Error.TheVariants as error;
ghost use Rattle.sqlite.specs.Held.{state};
ghost use Rattle.day_totals.specs.Totals.{greatest_count};
ghost use Rattle.acq_core.specs.Pasts.{HasPast};
ghost use Rattle.acq_core.specs.Tables.{postings_before, reconciliations_before};
ghost use Rattle.acq_sql_writes.specs.Refused.{HasNumberLeft};
ghost use Rattle.acq_sql_reads.specs.Failing.{FailsOnlyExcused, FailsOnlyExcusedWhere};
ghost use Rattle.acq_sql_reads.specs.Looked.{Answers, AnswersWhere, LooksOnly, number_or_zero};

use acq_core::{Posting, Reconciliation};
use acq_sql_reads::{last_reconciliation, totals};
use day_totals::{Leg, Totals};
use sqlite::{Alter, Connection, Error};

/// The greatest integer that a column keeps.
pub const GREATEST_INTEGER: u64 = 9_223_372_036_854_775_807;

/// Where a row of reconciliations has its number.
const NUMBER_COLUMN: usize = 2;

/// The number that a posting gets, the next of its merchant and day.
pub fn number_of_posting<S: Alter>(
    conn: &mut Connection<S>,
    posting: &Posting,
) -> Result<u64, Error>
    ensures answers { Answers (state S.Store conn.old) (state S.Store conn.new) result
        (λ t. postings_before t.postings posting.now + 1) }
    ensures few { IfOk result (λ n. n < 2 ^ 63) }
    ensures looks { LooksOnly (state S.Store conn.old) (state S.Store conn.new) (is_ok result) }
    ensures fails { FailsOnlyExcused (state S.Store conn.old) (state S.Store conn.new) result }
{
    let totals = totals(conn, posting.merchant, posting.day)?;
    Ok(posted(&totals) + 1)
}

/// How many postings there are in all.
fn posted(totals: &Totals) -> u64
    ensures value { result ≡ totals.now.credits.count + totals.now.credit_reversals.count
        + totals.now.debits.count + totals.now.debit_reversals.count }
    ensures few { result ≤ greatest_count }
{
    totals.count(Leg::Credit)
        + totals.count(Leg::CreditReversal)
        + totals.count(Leg::Debit)
        + totals.count(Leg::DebitReversal)
}

/// The number that a reconciliation gets, the next of its merchant and day. Where a column could
/// not keep it, it is out of range.
pub fn number_of_reconciliation<S: Alter>(
    conn: &mut Connection<S>,
    reconciliation: &Reconciliation,
) -> Result<u64, Error>
    ensures answers { AnswersWhere (state S.Store conn.old) (state S.Store conn.new) result HasPast
        (λ t. reconciliations_before t.reconciliations reconciliation.now + 1) }
    ensures few { IfOk result (λ n. n < 2 ^ 63) }
    ensures looks { LooksOnly (state S.Store conn.old) (state S.Store conn.new) (is_ok result) }
    ensures fails { FailsOnlyExcusedWhere (state S.Store conn.old) (state S.Store conn.new) result
        (λ t. HasNumberLeft t.reconciliations) }
{
    let last = last_reconciliation(conn, reconciliation.merchant, reconciliation.day)?;
    number_after(last)
}

fn number_after(last: Option<(u64, Reconciliation)>) -> Result<u64, Error>
    ensures value { IfOk result (λ n. n ≡ number_or_zero last + 1) }
    ensures short { IsOk result ↔ (number_or_zero last + 1 < 2 ^ 63) }
    ensures err { OnErr result (result ≡ Err (error.IntegralValueOutOfRange 2)) }
{
    let number = match last {
        Some((number, _)) => number,
        None => 0,
    };
    if number >= GREATEST_INTEGER {
        return Err(Error::IntegralValueOutOfRange(NUMBER_COLUMN));
    }
    Ok(number + 1)
}
