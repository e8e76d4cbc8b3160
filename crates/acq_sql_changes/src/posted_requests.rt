//! Requests that post as they are recorded.

ghost use Rattle.std.specs.Prelude.{◌≡◌, ◌<◌, ◌^◌, Some};
ghost use Rattle.sqlite.specs.Held.{state};
ghost use Rattle.acq_core.specs.declared.change.Change.TheVariants as change;
ghost use Rattle.iso_codec.specs.Message.{IsMessage};
ghost use Rattle.iso_codec.specs.Reading.{spelling};
ghost use Rattle.acq_sql_writes.specs.Written.{IsShortEnd};
ghost use Rattle.acq_sql_changes.specs.Transactions.{ChangesInside};
ghost use Rattle.acq_sql_changes.specs.Changed.{HasRoomToFollow, with_posted};
ghost use Rattle.acq_sql_changes.specs.Refused.{FailsInside, TakesPosted};

use crate::tallies::{totals_of_posting, used_by};
use acq_core::{Posting, Request};
use acq_sql_writes::{add_posting, add_request, raise};
use sqlite::{Alter, Connection, Error};

/// Records a request, whose reply is spelled so, counts it against its day, if it counts, and posts
/// to the request's merchant and day.
pub fn record_and_post<'x, S: Alter>(
    conn: &mut Connection<S>,
    request: &'x Request,
    reply: &'x [u8],
    number: u64,
    posting: &'x Posting,
) -> Result<(), Error>
    requires whole { IsMessage request.now.reply }
    requires spelled { reply.now ≡ spelling request.now.reply }
    requires hold_end { IsShortEnd request.now.hold_end }
    requires number { number < 2 ^ 63 }
    ensures changes { ChangesInside (state S.Store conn.old) (state S.Store conn.new) result
        (HasRoomToFollow request.now number posting.now)
        (with_posted request.now (Some posting.now)) }
    ensures fails { FailsInside (state S.Store conn.old) (state S.Store conn.new) result
        (change.AddRequest request.now) (TakesPosted request.now number posting.now) }
{
    let used = used_by(request);
    let posted = totals_of_posting(posting);
    add_request(conn, request, reply)?;
    add_posting(conn, number, posting)?;
    raise(conn, request.key.merchant, request.day, used, &posted)
}
