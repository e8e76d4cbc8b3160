//! Requests that are recorded as they end.

ghost use Rattle.sqlite.specs.Held.{state};
ghost use Rattle.acq_sql_changes.specs.Changed.{with_posted};
ghost use Rattle.acq_sql_changes.specs.Transactions.{ChangesInside};
ghost use Rattle.acq_sql.specs.Applied.{SuitsPosted};

use crate::apply::numbers::number_of_posting;
use crate::apply::request_columns::{check_hold_end, spelled};
use acq_core::{Posting, Request};
use acq_sql_changes::{record_and_post, record_request};
use sqlite::{Alter, Connection, Error};
use std::alloc::Global;

/// Records a request, and posts to its merchant and day, if there is a posting.
pub fn add_ended<'x, S: Alter>(
    conn: &mut Connection<S>,
    alloc: Global,
    request: &'x Request,
    posting: &'x Option<Posting>,
) -> Result<(), Error>
    ensures { ChangesInside (state S.Store conn.old) (state S.Store conn.new) result
        (SuitsPosted request.now posting.now) (with_posted request.now posting.now) }
{
    check_hold_end(request.hold_end)?;
    let reply = spelled(alloc, &request.reply)?;
    match posting {
        Some(posting) => {
            let number = number_of_posting(conn, posting)?;
            record_and_post(conn, request, &reply, number, posting)
        }
        None => record_request(conn, request, &reply),
    }
}
