//! Answers that post.

ghost use Rattle.std.specs.Prelude.{◌≡◌, ◌<◌, ◌^◌, Some};
ghost use Rattle.sqlite.specs.Held.{state};
ghost use Rattle.acq_core.specs.declared.change.Change.TheVariants as change;
ghost use Rattle.iso_codec.specs.Message.{IsMessage};
ghost use Rattle.iso_codec.specs.Reading.{spelling};
ghost use Rattle.acq_sql_writes.specs.Written.{IsShortEnd};
ghost use Rattle.acq_sql_changes.specs.Transactions.{ChangesInside};
ghost use Rattle.acq_sql_changes.specs.Changed.{HasRoomToPost, with_whole_answer};
ghost use Rattle.acq_sql_changes.specs.Refused.{FailsInside, IsNextPosting};

use crate::issuer_answer::IssuerAnswer;
use crate::tallies::totals_of_posting;
use acq_core::Posting;
use acq_sql_writes::{add_posting, answer_request, raise};
use sqlite::{Alter, Connection, Error};

/// Answers a request, and posts.
pub fn answer_and_post<'x, S: Alter>(
    conn: &mut Connection<S>,
    answer: &IssuerAnswer<'x>,
    number: u64,
    posting: &'x Posting,
) -> Result<(), Error>
    requires whole { IsMessage answer.now.reply.now }
    requires spelled { answer.now.text.now ≡ spelling answer.now.reply.now }
    requires hold_end { IsShortEnd answer.now.hold_end }
    requires number { number < 2 ^ 63 }
    ensures changes { ChangesInside (state S.Store conn.old) (state S.Store conn.new) result
        (HasRoomToPost number posting.now)
        (with_whole_answer answer.now.key answer.now.status answer.now.reply.now
        answer.now.hold_end (Some posting.now)) }
    ensures fails { FailsInside (state S.Store conn.old) (state S.Store conn.new) result
        (change.Answered answer.now.key answer.now.status answer.now.reply.now
        answer.now.hold_end (Some posting.now)) (IsNextPosting number posting.now) }
{
    let posted = totals_of_posting(posting);
    answer_request(
        conn,
        answer.key,
        answer.status,
        answer.hold_end,
        answer.reply,
        answer.text,
    )?;
    add_posting(conn, number, posting)?;
    raise(conn, posting.merchant, posting.day, 0, &posted)
}
