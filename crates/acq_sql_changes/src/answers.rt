//! Answers.

ghost use Rattle.std.specs.Prelude.{◌≡◌, None};
ghost use Rattle.sqlite.specs.Held.{state};
ghost use Rattle.acq_core.specs.declared.change.Change.TheVariants as change;
ghost use Rattle.iso_codec.specs.Message.{IsMessage};
ghost use Rattle.iso_codec.specs.Reading.{spelling};
ghost use Rattle.acq_sql_writes.specs.Written.{IsShortEnd};
ghost use Rattle.acq_sql_changes.specs.Transactions.{ChangesInside};
ghost use Rattle.acq_sql_changes.specs.Changed.{with_whole_answer};
ghost use Rattle.acq_sql_writes.specs.Refused.{AnyTables};
ghost use Rattle.acq_sql_changes.specs.Refused.{FailsInside};

use crate::issuer_answer::IssuerAnswer;
use acq_sql_writes::answer_request;
use sqlite::{Alter, Connection, Error};

/// Answers a request. Nothing is posted.
pub fn answer<'x, S: Alter>(
    conn: &mut Connection<S>,
    answer: &IssuerAnswer<'x>,
) -> Result<(), Error>
    requires whole { IsMessage answer.now.reply.now }
    requires spelled { answer.now.text.now ≡ spelling answer.now.reply.now }
    requires hold_end { IsShortEnd answer.now.hold_end }
    ensures changes { ChangesInside (state S.Store conn.old) (state S.Store conn.new) result
        AnyTables (with_whole_answer answer.now.key answer.now.status answer.now.reply.now
        answer.now.hold_end None) }
    ensures fails { FailsInside (state S.Store conn.old) (state S.Store conn.new) result
        (change.Answered answer.now.key answer.now.status answer.now.reply.now
        answer.now.hold_end None) AnyTables }
{
    answer_request(
        conn,
        answer.key,
        answer.status,
        answer.hold_end,
        answer.reply,
        answer.text,
    )
}
