//! Requests.

ghost use Rattle.std.specs.Prelude.{◌≡◌};
ghost use Rattle.sqlite.specs.Held.{state};
ghost use Rattle.acq_sql_writes.specs.Written.{WritesInside, Changes, with_request, IsShortEnd};
ghost use Rattle.acq_sql_writes.specs.Widened.{IsNeverRefused};
ghost use Rattle.acq_sql_writes.specs.Refused.{HasTables, TakesRequest};
ghost use Rattle.acq_sql_writes.specs.Apart.{FailsApart};
ghost use Rattle.iso_codec.specs.Message.{IsMessage};
ghost use Rattle.iso_codec.specs.Reading.{spelling};

use crate::statement::execute;
use acq_core::Request;
use acq_sql_rows::{
    amount_value, bit_value, day_value, hold_days_value, hold_end_value, leg_value, reference_if,
    status_value, text_if, texts,
};
use sqlite::types::ValueRef;
use sqlite::{Alter, Connection, Error};

/// Adds a request, whose reply is spelled so.
pub fn add_request<'x, S: Alter>(
    conn: &mut Connection<S>,
    request: &'x Request,
    reply: &'x [u8],
) -> Result<(), Error>
    requires whole { IsMessage request.now.reply }
    requires spelled { reply.now ≡ spelling request.now.reply }
    requires hold_end { IsShortEnd request.now.hold_end }
    ensures writes { WritesInside (state S.Store conn.old) (state S.Store conn.new)
        result (Changes (with_request request.now)) }
    ensures fails { IsNeverRefused (state S.Store conn.old)
        (state S.Store conn.new) result (HasTables (TakesRequest request.now)) }
    ensures apart { FailsApart (state S.Store conn.old) (state S.Store conn.new) result }
{
    let merchant = request.key.merchant.to_bytes();
    let terminal = request.key.terminal.to_bytes();
    let kind = request.key.service.digits();
    let trace = request.key.trace.to_bytes();
    let stamp = request.key.transmission.to_bytes();
    execute(
        conn,
        texts::ADD_REQUEST,
        &[
            ValueRef::Text(&merchant),
            ValueRef::Text(&terminal),
            ValueRef::Text(&kind),
            ValueRef::Text(&trace),
            ValueRef::Text(&stamp),
            ValueRef::Text(request.essence.as_bytes()),
            day_value(request.day),
            status_value(request.status),
            bit_value(request.admitted),
            reference_if(request.reference),
            reference_if(request.follows),
            amount_value(request.amount),
            leg_value(request.leg),
            text_if(&request.card),
            text_if(&request.acquirer),
            hold_days_value(request.hold_days),
            hold_end_value(request.hold_end),
            ValueRef::Text(reply),
        ],
    )
}
