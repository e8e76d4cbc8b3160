//! Answers of issuers.

ghost use Rattle.sqlite.specs.Held.{state};
ghost use Rattle.acq_core.specs.declared.change.Change.TheVariants as change;
ghost use Rattle.acq_core.specs.Pasts.{HasPast};
ghost use Rattle.acq_sql_writes.specs.Written.{IsShortEnd};
ghost use Rattle.acq_sql_changes.specs.Refused.{FailsInside};
ghost use Rattle.acq_sql.specs.Applied.{AppliesInside};

use crate::apply::numbers::number_of_posting;
use crate::apply::request_columns::{check_hold_end, spelled};
use acq_core::{Posting, RequestKey, Status};
use acq_sql_changes::{IssuerAnswer, answer_and_post};
use iso_codec::Message;
use sqlite::{Alter, Connection, Error};
use std::alloc::Global;

/// Answers the request with a key, and posts, if there is a posting.
pub fn answer<'x, S: Alter>(
    conn: &mut Connection<S>,
    alloc: Global,
    key: RequestKey,
    status: Status,
    reply: &'x Message,
    hold_end: Option<u64>,
    posting: &'x Option<Posting>,
) -> Result<(), Error>
    ensures changes { AppliesInside (state S.Store conn.old) (state S.Store conn.new) result
        (change.Answered key status reply.now hold_end posting.now) }
    ensures fails { IsShortEnd hold_end
        → FailsInside (state S.Store conn.old) (state S.Store conn.new) result
        (change.Answered key status reply.now hold_end posting.now) HasPast }
{
    check_hold_end(hold_end)?;
    let text = spelled(alloc, reply)?;
    let answer = IssuerAnswer {
        key,
        status,
        hold_end,
        reply,
        text: &text,
    };
    match posting {
        Some(posting) => {
            let number = number_of_posting(conn, posting)?;
            answer_and_post(conn, &answer, number, posting)
        }
        None => acq_sql_changes::answer(conn, &answer),
    }
}
