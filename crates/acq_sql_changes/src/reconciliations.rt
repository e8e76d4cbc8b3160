//! Requests that reconcile a day.

ghost use Rattle.std.specs.Prelude.{◌≡◌, ◌<◌, ◌^◌};
ghost use Rattle.sqlite.specs.Held.{state};
ghost use Rattle.acq_core.specs.declared.change.Change.TheVariants as change;
ghost use Rattle.iso_codec.specs.Message.{IsMessage};
ghost use Rattle.iso_codec.specs.Reading.{spelling};
ghost use Rattle.acq_sql_writes.specs.Written.{IsShortEnd};
ghost use Rattle.acq_sql_changes.specs.Transactions.{ChangesInside};
ghost use Rattle.acq_sql_changes.specs.Changed.{HasRoomToReconcile, with_reconciled};
ghost use Rattle.acq_sql_changes.specs.Refused.{FailsInside, IsNextReconciliation};

use crate::tallies::used_by;
use acq_core::{Reconciliation, Request};
use acq_sql_writes::{add_reconciliation, add_request, raise};
use day_totals::Totals;
use sqlite::{Alter, Connection, Error};

/// Records a request, whose reply is spelled so, counts it against its day, if it counts, and keeps
/// the reconciliation that it made, with its number of the merchant and day.
pub fn reconcile<'x, S: Alter>(
    conn: &mut Connection<S>,
    request: &'x Request,
    reply: &'x [u8],
    number: u64,
    reconciliation: &'x Reconciliation,
) -> Result<(), Error>
    requires whole { IsMessage request.now.reply }
    requires spelled { reply.now ≡ spelling request.now.reply }
    requires hold_end { IsShortEnd request.now.hold_end }
    requires number { number < 2 ^ 63 }
    ensures changes { ChangesInside (state S.Store conn.old) (state S.Store conn.new) result
        (HasRoomToReconcile request.now number reconciliation.now)
        (with_reconciled request.now reconciliation.now) }
    ensures fails { FailsInside (state S.Store conn.old) (state S.Store conn.new) result
        (change.Reconciled request.now reconciliation.now)
        (IsNextReconciliation number reconciliation.now) }
{
    let used = used_by(request);
    let none = Totals::zero();
    add_request(conn, request, reply)?;
    if !request.admitted {
        return add_reconciliation(conn, number, reconciliation);
    }
    add_reconciliation(conn, number, reconciliation)?;
    raise(conn, request.key.merchant, request.day, used, &none)
}
