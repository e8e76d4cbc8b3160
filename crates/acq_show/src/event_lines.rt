//! The lines that `replay` reads and writes, as a person is shown them.

ghost use Rattle.std.specs.Prelude.{◌≡◌, ◌<◌, ◌++◌, ◌∷◌, ◌==◌, IfOk, OnOk, length};
ghost use Rattle.std.specs.List.{list_any, position};
ghost use Rattle.std.specs.Result.{result_ok};
ghost use Rattle.hex.specs.Hex.{decode_of};
ghost use Rattle.acq_link.specs.HexLines as text;
ghost use Rattle.acq_link.specs.HexLines.{lines_of};
ghost use Rattle.acq_show.specs.Lines.{lines_shown, line_shown, reply_lines, frame_lines};
ghost use Rattle.acq_show.specs.Lines.{digits_lines, message_lines, first_field, later_fields};
ghost use Rattle.acq_show.specs.Lines.{begins, comma, is_known, known, other_line};

use crate::contents::{put_length, put_printable};
use crate::lines::show_message;
use hex::FromHexError;
use iso_codec::all_printable;
use std::alloc::{AllocError, Global};

/// The text that a person is shown of lines as `replay` reads and writes them: of `frame` and
/// `reply` lines the messages, each with an empty line behind it, and other lines as they stand. Of
/// a line of no such kind, which may hold anything, the length is shown. A carriage return at a
/// line's end is left out.
pub fn show_lines(alloc: Global, lines: &[u8]) -> Result<Vec<u8>, AllocError>
    ensures { IfOk result (λ text. text.items ≡ lines_shown lines.now) }
{
    let mut text = Vec::new(alloc);
    let mut rest = lines;
    while !rest.is_empty() {
        let (line, after) = line_at(rest);
        put_line(alloc, &mut text, without_return(line))?;
        rest = after;
    }
    Ok(text)
}

/// Puts what is shown of a line.
fn put_line(alloc: Global, text: &mut Vec<u8>, line: &[u8]) -> Result<(), AllocError>
    ensures { OnOk result (text.new.items ≡ text.old.items ++ line_shown line.now) }
{
    if line.starts_with(b"reply ") {
        return put_reply(alloc, text, &line[6..]);
    }
    if line.starts_with(b"frame,") {
        return put_frame(alloc, text, &line[6..]);
    }
    put_other(text, line)
}

/// Puts a line that has no message as it stands, and of a line of no kind its length alone.
fn put_other(text: &mut Vec<u8>, line: &[u8]) -> Result<(), AllocError>
    ensures { OnOk result (text.new.items ≡ text.old.items ++ other_line line.now) }
{
    if is_known(line) {
        put_printable(text, line)?;
    } else {
        put_length(text, line.len())?;
    }
    text.extend_from_slice(b"\n")
}

/// Whether a line is empty, or an event or an output that has no whole card number.
fn is_known(line: &[u8]) -> bool
    ensures { result ≡ is_known line.now }
{
    line.is_empty() || (all_printable(line) && begins_known(line))
}

/// Whether it begins so.
fn begins_known(line: &[u8]) -> bool
    ensures { result ≡ list_any (λ front. begins front line.now) known }
{
    line.starts_with(b"answer,")
        || line.starts_with(b"cutover,")
        || line.starts_with(b"addrange,")
        || line.starts_with(b"droprange,")
        || line.starts_with(b"enrol,")
        || line.starts_with(b"terminal,")
        || line.starts_with(b"ask ")
        || line.starts_with(b"done")
        || line.starts_with(b"refused ")
}

/// Puts what is shown of a reply's line, by what stands behind the word.
fn put_reply(alloc: Global, text: &mut Vec<u8>, message: &[u8]) -> Result<(), AllocError>
    ensures { OnOk result (text.new.items ≡ text.old.items ++ reply_lines message.now) }
{
    text.extend_from_slice(b"reply\n")?;
    put_message(alloc, text, message)
}

/// Puts what is shown of the line of a message that came, by what stands behind the word.
fn put_frame(alloc: Global, text: &mut Vec<u8>, fields: &[u8]) -> Result<(), AllocError>
    ensures { OnOk result (text.new.items ≡ text.old.items ++ frame_lines fields.now) }
{
    let (moment, later) = fields_of(fields);
    let (digits, _) = fields_of(later);
    text.extend_from_slice(b"frame,")?;
    put_printable(text, moment)?;
    text.extend_from_slice(b"\n")?;
    put_digits(alloc, text, digits)
}

/// Puts what is shown of the message that digits spell.
fn put_digits(alloc: Global, text: &mut Vec<u8>, digits: &[u8]) -> Result<(), AllocError>
    ensures { OnOk result (text.new.items
        ≡ text.old.items ++ digits_lines (result_ok (decode_of digits.now))) }
{
    match hex::decode(alloc, digits) {
        Ok(message) => put_message(alloc, text, message.as_slice()),
        Err(FromHexError::OutOfMemory) => Err(AllocError),
        Err(_) => text.extend_from_slice(b"not a message: no hexadecimal digits\n\n"),
    }
}

/// Puts what is shown of a message, and an empty line.
fn put_message(alloc: Global, text: &mut Vec<u8>, message: &[u8]) -> Result<(), AllocError>
    ensures { OnOk result (text.new.items ≡ text.old.items ++ message_lines message.now) }
{
    let shown = show_message(alloc, message)?;
    text.extend_from_slice(shown.as_slice())?;
    text.extend_from_slice(b"\n")
}

/// A record's first field, and those behind it.
fn fields_of(fields: &[u8]) -> (&[u8], &[u8])
    ensures first { result.0.now ≡ first_field fields.now }
    ensures later { result.1.now ≡ later_fields fields.now }
{
    match comma(fields) {
        Some(end) => (&fields[..end], &fields[end + 1..]),
        None => (fields, &[]),
    }
}

fn comma(fields: &[u8]) -> Option<usize>
    ensures { result ≡ comma fields.now }
{
    fields.iter().position(|byte| *byte == b',')
}

/// The first line of a text that isn't empty, and the text behind it. It takes no memory.
pub fn line_at(text: &[u8]) -> (&[u8], &[u8])
    requires { 0 < length text.now }
    ensures lines { lines_of text.now ≡ result.0.now ∷ lines_of result.1.now }
    ensures shorter { length result.1.now < length text.now }
{
    match line_end(text) {
        Some(end) => (&text[..end], &text[end + 1..]),
        None => (text, &[]),
    }
}

/// Where the first line feed stands, if one does.
fn line_end(text: &[u8]) -> Option<usize>
    ensures { result ≡ position (λ byte. byte == 10) text.now }
{
    text.iter().position(|byte| *byte == b'\n')
}

/// A line without the carriage return at its end. It takes no memory.
pub fn without_return(line: &[u8]) -> &[u8]
    ensures { result.now ≡ text.without_return line.now }
{
    line.strip_suffix(b"\r").unwrap_or(line)
}
