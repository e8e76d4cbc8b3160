//! The messages in the lines that `replay` reads and writes, as JSON.

ghost use Rattle.std.specs.Prelude.{◌≡◌, ◌++◌, ◌==◌, IfOk, OnOk};
ghost use Rattle.std.specs.List.{position};
ghost use Rattle.acq_show.specs.Lines.{comma, first_field, later_fields};
ghost use Rattle.acq_json.specs.Lines.{frame_json, json_lines, line_json, no_digits};
ghost use Rattle.acq_json.specs.Written.{json_line};

use crate::card_form::CardForm;
use crate::writing::{json_of_fault, json_of_message};
use acq_show::{line_at, without_return};
use hex::FromHexError;
use std::alloc::{AllocError, Global};

/// The lines of the messages in lines as `replay` reads and writes them: of each `frame` and
/// `reply` line the message's, as [`json_of_message`] gives it, and nothing of others. A frame
/// without hexadecimal digits is fault 0.
pub fn json_of_lines(alloc: Global, lines: &[u8], form: CardForm) -> Result<Vec<u8>, AllocError>
    ensures { IfOk result (λ text. text.items ≡ json_lines form lines.now) }
{
    let mut text = Vec::new(alloc);
    let mut rest = lines;
    while !rest.is_empty() {
        let (line, after) = line_at(rest);
        put_line(alloc, &mut text, without_return(line), form)?;
        rest = after;
    }
    Ok(text)
}

/// Puts what is written of a line.
fn put_line(
    alloc: Global,
    text: &mut Vec<u8>,
    line: &[u8],
    form: CardForm,
) -> Result<(), AllocError>
    ensures { OnOk result (text.new.items ≡ text.old.items ++ line_json form line.now) }
{
    if line.starts_with(b"reply ") {
        return put_message(alloc, text, &line[6..], form);
    }
    if line.starts_with(b"frame,") {
        return put_frame(alloc, text, &line[6..], form);
    }
    Ok(())
}

/// Puts the line of a message.
fn put_message(
    alloc: Global,
    text: &mut Vec<u8>,
    message: &[u8],
    form: CardForm,
) -> Result<(), AllocError>
    ensures { OnOk result (text.new.items ≡ text.old.items ++ json_line form message.now) }
{
    let line = json_of_message(alloc, message, form)?;
    text.extend_from_slice(line.as_slice())
}

/// Puts the line of the message of a frame, by what stands behind the word.
fn put_frame(
    alloc: Global,
    text: &mut Vec<u8>,
    fields: &[u8],
    form: CardForm,
) -> Result<(), AllocError>
    ensures { OnOk result (text.new.items ≡ text.old.items ++ frame_json form fields.now) }
{
    match hex::decode(alloc, first_field(later_fields(fields))) {
        Ok(message) => put_message(alloc, text, message.as_slice(), form),
        Err(FromHexError::OutOfMemory) => Err(AllocError),
        Err(_) => {
            let line = no_digits(alloc)?;
            text.extend_from_slice(line.as_slice())
        }
    }
}

/// The line of a frame without digits.
#[tactic(auto, unfolding(crate::specs::Lines::no_digits))]
fn no_digits(alloc: Global) -> Result<Vec<u8>, AllocError>
    ensures { IfOk result (λ line. line.items ≡ no_digits) }
{
    json_of_fault(alloc, "no hexadecimal digits")
}

/// A record's first field.
fn first_field(fields: &[u8]) -> &[u8]
    ensures { result.now ≡ first_field fields.now }
{
    match comma(fields) {
        Some(end) => &fields[..end],
        None => fields,
    }
}

/// The fields behind the first.
fn later_fields(fields: &[u8]) -> &[u8]
    ensures { result.now ≡ later_fields fields.now }
{
    match comma(fields) {
        Some(end) => &fields[end + 1..],
        None => &[],
    }
}

fn comma(fields: &[u8]) -> Option<usize>
    ensures { result ≡ comma fields.now }
{
    fields.iter().position(|byte| *byte == b',')
}
