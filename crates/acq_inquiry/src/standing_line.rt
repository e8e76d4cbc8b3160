//! Where requests stand.

ghost use Rattle.std.specs.Prelude.{◌≡◌, ◌++◌, OnOk};
ghost use Rattle.acq_inquiry.specs.RequestLines.{held_line, held_words, line_about};
ghost use Rattle.acq_inquiry.specs.RequestLines.{lowered_words, standing_line};

use crate::line_parts::{put_line, put_number, put_start};
use acq_core::{Request, Status};
use acq_reports::hold_end_text;
use std::alloc::AllocError;

/// Puts the line of where a request stands, if its status says more than its reply.
pub(crate) fn put_standing_line(text: &mut Vec<u8>, row: &Request) -> Result<(), AllocError>
    ensures { OnOk result (text.new.items
        ≡ text.old.items ++ standing_line row.now.status row.now) }
{
    match row.status {
        Status::Approved => put_held_line(text, row),
        Status::Completed => put_line(text, row, b"completed"),
        Status::Reversed => put_line(text, row, b"reversed"),
        Status::Lowered => put_lowered_line(text, row),
        _ => Ok(()),
    }
}

/// Puts the line of a hold that is approved; of another request there is none.
fn put_held_line(text: &mut Vec<u8>, row: &Request) -> Result<(), AllocError>
    ensures { OnOk result (text.new.items
        ≡ text.old.items ++ held_line row.now row.now.hold_end) }
{
    match row.hold_end {
        Some(end) => {
            put_start(text, row)?;
            put_held_words(text, end)?;
            text.extend_from_slice(b"\n")
        }
        None => Ok(()),
    }
}

/// Puts the last second of a hold.
fn put_held_words(text: &mut Vec<u8>, end: u64) -> Result<(), AllocError>
    ensures { OnOk result (text.new.items ≡ text.old.items ++ held_words end) }
{
    text.extend_from_slice(b"held until ")?;
    text.extend_from_slice(&hold_end_text(end))
}

/// Puts the line of a hold that a reversal lowered.
fn put_lowered_line(text: &mut Vec<u8>, row: &Request) -> Result<(), AllocError>
    ensures { OnOk result (text.new.items
        ≡ text.old.items ++ line_about row.now (lowered_words row.now.amount row.now.hold_end)) }
{
    put_start(text, row)?;
    put_lowered_words(text, row.amount.number(), row.hold_end)?;
    text.extend_from_slice(b"\n")
}

/// Puts what a reversal left of a hold.
fn put_lowered_words(text: &mut Vec<u8>, amount: u64, end: Option<u64>) -> Result<(), AllocError>
    ensures { OnOk result (text.new.items ≡ text.old.items ++ lowered_words amount end) }
{
    text.extend_from_slice(b"lowered to ")?;
    put_number(text, amount)?;
    match end {
        Some(end) => {
            text.extend_from_slice(b", ")?;
            put_held_words(text, end)
        }
        None => Ok(()),
    }
}
