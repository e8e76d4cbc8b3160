//! The lines of a request.

ghost use Rattle.std.specs.Prelude.{◌≡◌, ◌++◌, OnOk};
ghost use Rattle.acq_inquiry.specs.RequestLines.{asked_words, line_about, reply_words};
ghost use Rattle.acq_inquiry.specs.RequestLines.{request_lines};

use crate::asked_words::put_asked_words;
use crate::line_parts::put_start;
use crate::reply_words::put_reply_words;
use crate::standing_line::put_standing_line;
use acq_core::Request;
use std::alloc::AllocError;

/// Puts the lines of a request: what it was, its reply, and where it stands, if its status says
/// more than its reply.
pub(crate) fn put_request_lines(text: &mut Vec<u8>, row: &Request) -> Result<(), AllocError>
    ensures { OnOk result (text.new.items ≡ text.old.items ++ request_lines row.now) }
{
    put_asked_line(text, row)?;
    put_reply_line(text, row)?;
    put_standing_line(text, row)
}

/// Puts the line of what a request was.
fn put_asked_line(text: &mut Vec<u8>, row: &Request) -> Result<(), AllocError>
    ensures { OnOk result (text.new.items
        ≡ text.old.items ++ line_about row.now (asked_words row.now)) }
{
    put_start(text, row)?;
    put_asked_words(text, row)?;
    text.extend_from_slice(b"\n")
}

/// Puts the line of a request's reply.
fn put_reply_line(text: &mut Vec<u8>, row: &Request) -> Result<(), AllocError>
    ensures { OnOk result (text.new.items
        ≡ text.old.items ++ line_about row.now (reply_words row.now.status row.now.reply)) }
{
    put_start(text, row)?;
    put_reply_words(text, row.status, &row.reply)?;
    text.extend_from_slice(b"\n")
}
