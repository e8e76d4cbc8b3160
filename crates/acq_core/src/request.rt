//! Recorded requests.

ghost use Rattle.std.specs.Prelude.{◌≡◌, IfOk};

use crate::status::Status;
use acq_message::{Amount, ElementContent, MessageText, Reference, RequestKey};
use day_totals::{Day, Leg};
use iso_codec::Message;
use std::alloc::{AllocError, Global};

/// A row of the requests: one that was recorded, and where it stands.
#[derive(Drop)]
pub struct Request {
    pub key: RequestKey,
    /// What a repeat must have alike: the spelling of a message of the base type, whose last digit
    /// is 0, with the card number and the elements that a decision reads, but for element 14.
    pub essence: MessageText,
    /// The business day on which it came.
    pub day: Day,
    pub status: Status,
    /// Whether it counts against the limit of its day.
    pub admitted: bool,
    /// The reference of an admitted authorization, sale or return.
    pub reference: Option<Reference>,
    /// The reference of the hold that an accepted completion completes, or of the original that an
    /// accepted reversal reverses.
    pub follows: Option<Reference>,
    /// Element 4, 0 where there is none.
    pub amount: Amount,
    /// The leg of an admitted sale or return, of an accepted completion, and of a reversal that
    /// posts, else credit.
    pub leg: Leg,
    /// The card number, perhaps empty; for an accepted completion its hold's.
    pub card: Option<ElementContent>,
    /// Element 32.
    pub acquirer: Option<ElementContent>,
    /// The hold days of the card's range, where the request was admitted.
    pub hold_days: Option<u8>,
    /// The last second of an approved hold, in seconds since 1970-01-01 00:00:00 UTC. It may lie up
    /// to 31 days past the last moment that there is, so it is no `Moment`.
    pub hold_end: Option<u64>,
    /// The reply. While the request is pending, what stands fixed of it: all but the authorization
    /// id and the code.
    pub reply: Message,
}

impl Request {
    /// A copy.
    pub fn copied(&self, alloc: Global) -> Result<Request, AllocError>
        ensures { IfOk result (λ copy. copy ≡ self.now) }
    {
        let essence = self.essence.copied(alloc)?;
        let reply = self.reply.copied(alloc)?;
        let card = content_copied(alloc, &self.card)?;
        let acquirer = content_copied(alloc, &self.acquirer)?;
        Ok(Request {
            key: self.key,
            essence,
            day: self.day,
            status: self.status,
            admitted: self.admitted,
            reference: self.reference,
            follows: self.follows,
            amount: self.amount,
            leg: self.leg,
            card,
            acquirer,
            hold_days: self.hold_days,
            hold_end: self.hold_end,
            reply,
        })
    }

    /// A copy of its card number.
    pub fn card_copied(&self, alloc: Global) -> Result<Option<ElementContent>, AllocError>
        ensures { IfOk result (λ copy. copy ≡ self.now.card) }
    {
        content_copied(alloc, &self.card)
    }
}

/// A copy of an element's content, where it is there.
fn content_copied(
    alloc: Global,
    content: &Option<ElementContent>,
) -> Result<Option<ElementContent>, AllocError>
    ensures { IfOk result (λ copy. copy ≡ content.now) }
{
    match content {
        Some(content) => Ok(Some(content.copied(alloc)?)),
        None => Ok(None),
    }
}
