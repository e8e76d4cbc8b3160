//! Parts of lines.

ghost use Rattle.std.specs.Prelude.{◌≡◌, ◌++◌, OnOk};
ghost use Rattle.std.specs.Fmt.{decimal};
ghost use Rattle.acq_inquiry.specs.RequestLines.{line_about, start_of};

use acq_core::Request;
use itoa::Buffer;
use std::alloc::AllocError;

/// Puts how each line begins: the business day, the terminal and the trace number.
pub(crate) fn put_start(text: &mut Vec<u8>, row: &Request) -> Result<(), AllocError>
    ensures { OnOk result (text.new.items ≡ text.old.items ++ start_of row.now) }
{
    text.extend_from_slice(&row.day.date_text())?;
    text.extend_from_slice(b" ")?;
    text.extend_from_slice(&row.key.terminal.to_bytes())?;
    text.extend_from_slice(b" ")?;
    text.extend_from_slice(&row.key.trace.to_bytes())?;
    text.extend_from_slice(b" ")
}

/// Puts a line of these words.
pub(crate) fn put_line(text: &mut Vec<u8>, row: &Request, words: &[u8]) -> Result<(), AllocError>
    ensures { OnOk result (text.new.items ≡ text.old.items ++ line_about row.now words.now) }
{
    put_start(text, row)?;
    text.extend_from_slice(words)?;
    text.extend_from_slice(b"\n")
}

/// Puts a number in decimal digits.
pub(crate) fn put_number(text: &mut Vec<u8>, number: u64) -> Result<(), AllocError>
    ensures { OnOk result (text.new.items ≡ text.old.items ++ decimal number) }
{
    let mut digits = Buffer::new();
    text.extend_from_slice(digits.format(number).as_bytes())
}
