//! Any change.

ghost use Rattle.std.specs.Prelude.{◌≡◌, false, true};
ghost use Rattle.sqlite.specs.Held.{state};
ghost use Rattle.acq_core.specs.Pasts.{HasPast};
ghost use Rattle.acq_sql_changes.specs.Refused.{FailsAmong, FailsInside};
ghost use Rattle.acq_sql.specs.Applied.{Applies, AppliesInside, EndsOutside, HasShortEnd};

use crate::apply::answers::answer;
use crate::apply::follows::follow;
use crate::apply::requests::{add_reconciliation, add_request};
use acq_core::Change;
use acq_sql_changes::{
    add_range, begin, cut_over, drop_range, enrol, enrol_terminal, keep, roll_back,
};
use sqlite::{Alter, Connection, Error};
use std::alloc::Global;

/// Makes a change inside the transaction that is open, if one is, and else all of it or none in a
/// transaction of its own. The end of a hold past 2^63 - 1 is refused as out of range, before
/// anything is written, and so is a reconciliation after the one with that number.
pub fn apply<S: Alter>(
    conn: &mut Connection<S>,
    alloc: Global,
    change: &Change,
    in_group: bool,
) -> Result<(), Error>
    ensures whole { in_group ≡ false
        → Applies (state S.Store conn.old) (state S.Store conn.new) result change.now }
    ensures outside { in_group ≡ false
        → EndsOutside (state S.Store conn.old) (state S.Store conn.new) }
    ensures inside { in_group ≡ true
        → AppliesInside (state S.Store conn.old) (state S.Store conn.new) result change.now }
    // Where a column can keep the end of its hold, and the change suits, it fails only for memory
    // or since the store failed.
    ensures fails { in_group ≡ false → HasShortEnd change.now
        → FailsAmong (state S.Store conn.old) (state S.Store conn.new) result change.now HasPast }
    ensures fails_inside { in_group ≡ true → HasShortEnd change.now
        → FailsInside (state S.Store conn.old) (state S.Store conn.new) result change.now HasPast }
{
    if in_group {
        change_within(conn, alloc, change)
    } else {
        change_alone(conn, alloc, change)
    }
}

/// Makes all of a change, or none of it, in a transaction of its own.
fn change_alone<S: Alter>(
    conn: &mut Connection<S>,
    alloc: Global,
    change: &Change,
) -> Result<(), Error>
    ensures whole { Applies (state S.Store conn.old) (state S.Store conn.new) result change.now }
    ensures outside { EndsOutside (state S.Store conn.old) (state S.Store conn.new) }
    ensures fails { HasShortEnd change.now
        → FailsAmong (state S.Store conn.old) (state S.Store conn.new) result change.now HasPast }
{
    begin(conn)?;
    match change_within(conn, alloc, change) {
        Ok(()) => keep(conn),
        Err(error) => {
            roll_back(conn);
            Err(error)
        }
    }
}

/// Makes a change inside the transaction that is open. Nothing is committed; after an error the
/// transaction is to be rolled back.
fn change_within<S: Alter>(
    conn: &mut Connection<S>,
    alloc: Global,
    change: &Change,
) -> Result<(), Error>
    ensures changes { AppliesInside (state S.Store conn.old) (state S.Store conn.new) result
        change.now }
    ensures fails { HasShortEnd change.now
        → FailsInside (state S.Store conn.old) (state S.Store conn.new) result change.now HasPast }
{
    match change {
        Change::AddMerchant(merchant) => enrol(conn, merchant),
        Change::AddTerminal(terminal) => enrol_terminal(conn, terminal),
        Change::AddRange(range) => add_range(conn, range),
        Change::DropRange { low, high } => drop_range(conn, *low, *high),
        Change::SetDay(day) => cut_over(conn, *day),
        Change::AddRequest(request) => add_request(conn, alloc, request),
        Change::Answered {
            key,
            status,
            reply,
            hold_end,
            posting,
        } => answer(conn, alloc, *key, *status, reply, *hold_end, posting),
        Change::Follow {
            request,
            original,
            remains,
            posting,
        } => follow(conn, alloc, request, *original, *remains, posting),
        Change::Reconciled {
            request,
            reconciliation,
        } => add_reconciliation(conn, alloc, request, reconciliation),
    }
}
