//! Changes behind a request that is held back.

ghost use Rattle.std.specs.Prelude.{◌≡◌, true, IfOk, IfSome};
ghost use Rattle.acq_core.specs.declared.change.Change.TheVariants as change;
ghost use Rattle.acq_core.specs.Tables.{after, answered_row};
ghost use Rattle.acq_book.specs.Fits.{IsPostedBy};
ghost use Rattle.acq_sql.specs.Holding.{ChangesGroup, LeadsBehind, after_both};

use crate::sql_book::SqlBook;
use acq_book::BookFault;
use acq_core::{Change, Posting, Request, Status};
use iso_codec::Message;
use sqlite::Alter;
use std::alloc::{AllocError, Global};

/// Makes a change behind a request that was held back. Where it answers that request, the request
/// is written as it ends; else it is recorded first.
pub(crate) fn change_behind<S: Alter>(
    book: &mut SqlBook<S>,
    alloc: Global,
    held: Request,
    change: &Change,
) -> Result<(), BookFault>
    ensures { ChangesGroup S.Store book.old book.new result (LeadsBehind held change.now)
        (after_both held change.now) }
{
    match change {
        Change::Answered {
            key,
            status,
            reply,
            hold_end,
            posting,
        } if *key == held.key && is_own(&held, posting) => {
            let ended = answered(alloc, held, *status, reply, *hold_end)?;
            book.record_ended(&ended, posting)
        }
        _ => {
            book.record(&held)?;
            book.change(change)
        }
    }
}

/// Whether a posting, if there is one, is to the request's own merchant and day.
fn is_own(request: &Request, posting: &Option<Posting>) -> bool
    ensures { result ≡ true → IfSome posting.now (IsPostedBy request.now) }
{
    match posting {
        Some(posting) => { posting.merchant == request.key.merchant && posting.day == request.day }
        None => true,
    }
}

/// A request as it ends.
fn answered(
    alloc: Global,
    mut request: Request,
    status: Status,
    reply: &Message,
    hold_end: Option<u64>,
) -> Result<Request, AllocError>
    ensures { IfOk result (λ ended. ended ≡ answered_row status reply.now hold_end request) }
{
    let reply = reply.copied(alloc)?;
    request.status = status;
    request.reply = reply;
    request.hold_end = hold_end;
    Ok(request)
}
