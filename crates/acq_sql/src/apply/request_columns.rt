//! What columns of a request keep: the bytes of its reply, and the end of its hold.

ghost use Rattle.std.specs.Prelude.{◌≡◌, ◌↔◌, IfOk, IsOk, OnOk, OnErr};
ghost use Rattle.sqlite.specs.declared.error.Error.TheVariants as error;
ghost use Rattle.iso_codec.specs.Message.{IsMessage};
ghost use Rattle.iso_codec.specs.Reading.{spelling};
ghost use Rattle.acq_sql_writes.specs.Written.{IsShortEnd};
ghost use Rattle.acq_sql_reads.specs.Failing.{FailsForMemory};

use crate::apply::numbers::GREATEST_INTEGER;
use iso_codec::{Message, encode};
use sqlite::Error;
use std::alloc::Global;

/// Room for most replies.
const USUAL_LENGTH: usize = 256;

/// Where a row of requests has the end of its hold.
const HOLD_END_COLUMN: usize = 16;

/// The bytes of a reply.
pub fn spelled(alloc: Global, reply: &Message) -> Result<Vec<u8>, Error>
    ensures whole { OnOk result (IsMessage reply.now) }
    ensures spelled { IfOk result (λ text. text.items ≡ spelling reply.now) }
    ensures fails { FailsForMemory result }
{
    let mut text = Vec::with_capacity(alloc, USUAL_LENGTH)?;
    encode(alloc, reply, &mut text)?;
    Ok(text)
}

/// Refuses the end of a hold that a column could not keep: it is out of range.
pub fn check_hold_end(hold_end: Option<u64>) -> Result<(), Error>
    ensures short { IsOk result ↔ IsShortEnd hold_end }
    ensures err { OnErr result (result ≡ Err (error.IntegralValueOutOfRange 16)) }
{
    match hold_end {
        Some(end) if end > GREATEST_INTEGER => Err(Error::IntegralValueOutOfRange(HOLD_END_COLUMN)),
        _ => Ok(()),
    }
}
