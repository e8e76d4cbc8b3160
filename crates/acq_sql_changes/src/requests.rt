//! Requests that are recorded with nothing beside them.

ghost use Rattle.std.specs.Prelude.{◌≡◌};
ghost use Rattle.sqlite.specs.Held.{state};
ghost use Rattle.acq_core.specs.declared.change.Change.TheVariants as change;
ghost use Rattle.iso_codec.specs.Message.{IsMessage};
ghost use Rattle.iso_codec.specs.Reading.{spelling};
ghost use Rattle.acq_sql_writes.specs.Written.{with_request, IsShortEnd};
ghost use Rattle.acq_sql_changes.specs.Transactions.{ChangesInside};
ghost use Rattle.acq_sql_changes.specs.Changed.{HasRoomFor};
ghost use Rattle.acq_sql_writes.specs.Refused.{AnyTables};
ghost use Rattle.acq_sql_changes.specs.Refused.{FailsInside, TellsApart};

use crate::tallies::used_by;
use acq_core::Request;
use acq_sql_writes::{add_request, raise};
use day_totals::Totals;
use sqlite::{Alter, Connection, Error};

/// Records a request, whose reply is spelled so, and counts it against its day, if it counts.
pub fn record_request<'x, S: Alter>(
    conn: &mut Connection<S>,
    request: &'x Request,
    reply: &'x [u8],
) -> Result<(), Error>
    requires whole { IsMessage request.now.reply }
    requires spelled { reply.now ≡ spelling request.now.reply }
    requires hold_end { IsShortEnd request.now.hold_end }
    ensures changes { ChangesInside (state S.Store conn.old) (state S.Store conn.new) result
        (HasRoomFor request.now) (with_request request.now) }
    ensures fails { FailsInside (state S.Store conn.old) (state S.Store conn.new) result
        (change.AddRequest request.now) AnyTables }
    ensures apart { TellsApart (state S.Store conn.old) (state S.Store conn.new) result }
{
    if !request.admitted {
        return add_request(conn, request, reply);
    }
    let used = used_by(request);
    let none = Totals::zero();
    add_request(conn, request, reply)?;
    raise(conn, request.key.merchant, request.day, used, &none)
}
