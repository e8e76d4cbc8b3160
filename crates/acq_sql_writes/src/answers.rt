//! What becomes of a recorded request.

ghost use Rattle.std.specs.Prelude.{◌≡◌};
ghost use Rattle.sqlite.specs.Held.{state};
ghost use Rattle.acq_sql_writes.specs.Written.{WritesInside, Changes, with_answer, with_remains};
ghost use Rattle.acq_sql_writes.specs.Written.{IsShortEnd};
ghost use Rattle.acq_sql_writes.specs.Widened.{IsNeverRefused};
ghost use Rattle.acq_sql_writes.specs.Refused.{HasTables, HasShortRequests};
ghost use Rattle.iso_codec.specs.Message.{IsMessage};
ghost use Rattle.iso_codec.specs.Reading.{spelling};

use crate::statement::execute;
use acq_core::{Remains, RequestKey, Status};
use acq_sql_rows::{amount_value, hold_end_value, status_value, texts};
use iso_codec::Message;
use sqlite::types::ValueRef;
use sqlite::{Alter, Connection, Error};

/// Gives the request with a key a status, a reply, which is spelled so, and the end of its hold.
pub fn answer_request<'x, S: Alter>(
    conn: &mut Connection<S>,
    key: RequestKey,
    status: Status,
    hold_end: Option<u64>,
    reply: &'x Message,
    spelled: &'x [u8],
) -> Result<(), Error>
    requires whole { IsMessage reply.now }
    requires spelled { spelled.now ≡ spelling reply.now }
    requires hold_end { IsShortEnd hold_end }
    ensures writes { WritesInside (state S.Store conn.old) (state S.Store conn.new)
        result (Changes (with_answer key status reply.now hold_end)) }
    ensures fails { IsNeverRefused (state S.Store conn.old)
        (state S.Store conn.new) result (HasTables HasShortRequests) }
{
    let merchant = key.merchant.to_bytes();
    let terminal = key.terminal.to_bytes();
    let kind = key.service.digits();
    let trace = key.trace.to_bytes();
    let stamp = key.transmission.to_bytes();
    execute(
        conn,
        texts::ANSWER,
        &[
            ValueRef::Text(&merchant),
            ValueRef::Text(&terminal),
            ValueRef::Text(&kind),
            ValueRef::Text(&trace),
            ValueRef::Text(&stamp),
            status_value(status),
            hold_end_value(hold_end),
            ValueRef::Text(spelled),
        ],
    )
}

/// Leaves of the request with a key what remains of it.
pub fn follow_request<S: Alter>(
    conn: &mut Connection<S>,
    key: RequestKey,
    remains: Remains,
) -> Result<(), Error>
    ensures writes { WritesInside (state S.Store conn.old) (state S.Store conn.new)
        result (Changes (with_remains key remains)) }
    ensures fails { IsNeverRefused (state S.Store conn.old)
        (state S.Store conn.new) result (HasTables HasShortRequests) }
{
    let merchant = key.merchant.to_bytes();
    let terminal = key.terminal.to_bytes();
    let kind = key.service.digits();
    let trace = key.trace.to_bytes();
    let stamp = key.transmission.to_bytes();
    execute(
        conn,
        texts::FOLLOW,
        &[
            ValueRef::Text(&merchant),
            ValueRef::Text(&terminal),
            ValueRef::Text(&kind),
            ValueRef::Text(&trace),
            ValueRef::Text(&stamp),
            status_value(remains.status),
            amount_value(remains.amount),
        ],
    )
}
