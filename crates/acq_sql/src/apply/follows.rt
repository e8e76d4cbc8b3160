//! Completions and reversals.

ghost use Rattle.sqlite.specs.Held.{state};
ghost use Rattle.acq_core.specs.declared.change.Change.TheVariants as change;
ghost use Rattle.acq_core.specs.Pasts.{HasPast};
ghost use Rattle.acq_sql_changes.specs.Refused.{FailsInside};
ghost use Rattle.acq_sql_writes.specs.Written.{IsShortEnd};
ghost use Rattle.acq_sql.specs.Applied.{AppliesInside};

use crate::apply::numbers::number_of_posting;
use crate::apply::request_columns::{check_hold_end, spelled};
use acq_core::{Posting, Remains, Request, RequestKey};
use acq_sql_changes::follow_and_post;
use sqlite::{Alter, Connection, Error};
use std::alloc::Global;

/// Records a request that follows the one with a key, of which this remains, and posts, if there is
/// a posting.
pub fn follow<'x, S: Alter>(
    conn: &mut Connection<S>,
    alloc: Global,
    request: &'x Request,
    original: RequestKey,
    remains: Remains,
    posting: &'x Option<Posting>,
) -> Result<(), Error>
    ensures changes { AppliesInside (state S.Store conn.old) (state S.Store conn.new) result
        (change.Follow request.now original remains posting.now) }
    ensures fails { IsShortEnd request.now.hold_end
        → FailsInside (state S.Store conn.old) (state S.Store conn.new) result
        (change.Follow request.now original remains posting.now) HasPast }
{
    check_hold_end(request.hold_end)?;
    let reply = spelled(alloc, &request.reply)?;
    match posting {
        Some(posting) => {
            let number = number_of_posting(conn, posting)?;
            follow_and_post(conn, request, &reply, original, remains, number, posting)
        }
        None => acq_sql_changes::follow(conn, request, &reply, original, remains),
    }
}
