//! Requests with nothing posted.

ghost use Rattle.sqlite.specs.Held.{state};
ghost use Rattle.acq_core.specs.declared.change.Change.TheVariants as change;
ghost use Rattle.acq_core.specs.Pasts.{HasPast};
ghost use Rattle.acq_sql_changes.specs.Refused.{FailsInside, TellsApart};
ghost use Rattle.acq_sql_writes.specs.Written.{IsShortEnd};
ghost use Rattle.acq_sql.specs.Applied.{AppliesInside};

use crate::apply::numbers::number_of_reconciliation;
use crate::apply::request_columns::{check_hold_end, spelled};
use acq_core::{Reconciliation, Request};
use acq_sql_changes::{reconcile, record_request};
use sqlite::{Alter, Connection, Error};
use std::alloc::Global;

/// Records a request.
pub fn add_request<'x, S: Alter>(
    conn: &mut Connection<S>,
    alloc: Global,
    request: &'x Request,
) -> Result<(), Error>
    ensures changes { AppliesInside (state S.Store conn.old) (state S.Store conn.new) result
        (change.AddRequest request.now) }
    ensures fails { IsShortEnd request.now.hold_end
        → FailsInside (state S.Store conn.old) (state S.Store conn.new) result
        (change.AddRequest request.now) HasPast }
    ensures apart { TellsApart (state S.Store conn.old) (state S.Store conn.new) result }
{
    check_hold_end(request.hold_end)?;
    let reply = spelled(alloc, &request.reply)?;
    record_request(conn, request, &reply)
}

/// Records a request that reconciles a day.
pub fn add_reconciliation<'x, S: Alter>(
    conn: &mut Connection<S>,
    alloc: Global,
    request: &'x Request,
    reconciliation: &'x Reconciliation,
) -> Result<(), Error>
    ensures changes { AppliesInside (state S.Store conn.old) (state S.Store conn.new) result
        (change.Reconciled request.now reconciliation.now) }
    ensures fails { IsShortEnd request.now.hold_end
        → FailsInside (state S.Store conn.old) (state S.Store conn.new) result
        (change.Reconciled request.now reconciliation.now) HasPast }
{
    check_hold_end(request.hold_end)?;
    let reply = spelled(alloc, &request.reply)?;
    let number = number_of_reconciliation(conn, reconciliation)?;
    reconcile(conn, request, &reply, number, reconciliation)
}
