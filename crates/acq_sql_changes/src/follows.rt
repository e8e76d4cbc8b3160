//! Requests that complete or reverse an earlier one.

ghost use Rattle.std.specs.Prelude.{◌≡◌, ◌<◌, ◌^◌, None, Some};
ghost use Rattle.sqlite.specs.Held.{state};
ghost use Rattle.acq_core.specs.declared.change.Change.TheVariants as change;
ghost use Rattle.iso_codec.specs.Message.{IsMessage};
ghost use Rattle.iso_codec.specs.Reading.{spelling};
ghost use Rattle.acq_sql_writes.specs.Written.{IsShortEnd};
ghost use Rattle.acq_sql_changes.specs.Transactions.{ChangesInside};
ghost use Rattle.acq_sql_changes.specs.Changed.{HasRoomFor, HasRoomToFollow};
ghost use Rattle.acq_sql_changes.specs.Changed.{with_follow};
ghost use Rattle.acq_sql_writes.specs.Refused.{AnyTables};
ghost use Rattle.acq_sql_changes.specs.Refused.{FailsInside, IsNextPosting};

use crate::tallies::{totals_of_posting, used_by};
use acq_core::{Posting, Remains, Request, RequestKey};
use acq_sql_writes::{add_posting, add_request, follow_request, raise};
use day_totals::Totals;
use sqlite::{Alter, Connection, Error};

/// Records a request, whose reply is spelled so, counts it against its day, and leaves what remains
/// of the request that it follows. Nothing is posted.
pub fn follow<'x, S: Alter>(
    conn: &mut Connection<S>,
    request: &'x Request,
    reply: &'x [u8],
    original: RequestKey,
    remains: Remains,
) -> Result<(), Error>
    requires whole { IsMessage request.now.reply }
    requires spelled { reply.now ≡ spelling request.now.reply }
    requires hold_end { IsShortEnd request.now.hold_end }
    ensures changes { ChangesInside (state S.Store conn.old) (state S.Store conn.new) result
        (HasRoomFor request.now) (with_follow request.now original remains None) }
    ensures fails { FailsInside (state S.Store conn.old) (state S.Store conn.new) result
        (change.Follow request.now original remains None) AnyTables }
{
    let used = used_by(request);
    let none = Totals::zero();
    follow_request(conn, original, remains)?;
    add_request(conn, request, reply)?;
    raise(conn, request.key.merchant, request.day, used, &none)
}

/// Records a request, whose reply is spelled so, counts it against its day, leaves what remains of
/// the request that it follows, and posts to the request's merchant and day.
pub fn follow_and_post<'x, S: Alter>(
    conn: &mut Connection<S>,
    request: &'x Request,
    reply: &'x [u8],
    original: RequestKey,
    remains: Remains,
    number: u64,
    posting: &'x Posting,
) -> Result<(), Error>
    requires whole { IsMessage request.now.reply }
    requires spelled { reply.now ≡ spelling request.now.reply }
    requires hold_end { IsShortEnd request.now.hold_end }
    requires number { number < 2 ^ 63 }
    ensures changes { ChangesInside (state S.Store conn.old) (state S.Store conn.new) result
        (HasRoomToFollow request.now number posting.now)
        (with_follow request.now original remains (Some posting.now)) }
    ensures fails { FailsInside (state S.Store conn.old) (state S.Store conn.new) result
        (change.Follow request.now original remains (Some posting.now))
        (IsNextPosting number posting.now) }
{
    let used = used_by(request);
    let posted = totals_of_posting(posting);
    follow_request(conn, original, remains)?;
    add_request(conn, request, reply)?;
    add_posting(conn, number, posting)?;
    raise(conn, request.key.merchant, request.day, used, &posted)
}
