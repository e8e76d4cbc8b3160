//! Texts of hexadecimal lines.

ghost use Rattle.std.specs.Prelude.{◌≡◌, ◌⊎◌, ◌<◌, ◌++◌, ◌∷◌, ◌==◌, ℕ, List, length};
ghost use Rattle.std.specs.Prelude.{Ok, None, Some, IfOk, IfErr, OnOk, MatchOption};
ghost use Rattle.std.specs.Prelude.{option_to_list, true, false};
ghost use Rattle.std.specs.List.{position};
ghost use Rattle.acq_link.specs.Frames.{Frames, framed};
ghost use Rattle.acq_link.specs.HexFaults.{IsFaultOf};
ghost use Rattle.acq_link.specs.HexLines as spec;
ghost use Rattle.acq_link.specs.HexLines.{is_bad_line, lines_of, message_of_digits};
ghost use Rattle.acq_link.specs.HexLines.{message_of_line, messages_of_text};
ghost use Rattle.acq_link.specs.declared.hex_frames.hex_fault.HexFault.TheVariants.{Memory, BadLine};

use crate::frames::add_frame;
use crate::hex_frames::hex_fault::HexFault;
use hex::FromHexError;
use std::alloc::{AllocError, Global};

/// The most bytes of a message.
const LONGEST: usize = 4096;

/// The frames of the messages that a text's lines hold, each in hexadecimal digits of either case
/// (`specs/HexLines.antt`). Empty lines hold none, and a carriage return at a line's end is left
/// out. `BadLine` names the first line, counted from 1, that holds something else than a message of
/// 1 to 4,096 bytes.
pub fn frames_of_hex(alloc: Global, text: &[u8]) -> Result<Vec<u8>, HexFault>
    ensures frames { IfOk result (λ frames. (messages : List (List ℕ))
        × (messages_of_text text.now ≡ Ok messages) × Frames frames.items messages) }
    ensures fault { IfErr result (λ fault. IsFaultOf text.now fault) }
{
    let mut frames = Vec::new(alloc);
    let mut rest = text;
    let mut number = 0;
    while !rest.is_empty() {
        let (line, after) = line_at(rest);
        number += 1;
        add_line(alloc, &mut frames, line, number)?;
        rest = after;
    }
    Ok(frames)
}

/// The first line of a text that isn't empty, and the text behind it.
fn line_at(text: &[u8]) -> (&[u8], &[u8])
    requires { 0 < length text.now }
    ensures lines { lines_of text.now ≡ result.0.now ∷ lines_of result.1.now }
    ensures shorter { length result.1.now < length text.now }
{
    match line_end(text) {
        Some(end) => (&text[..end], &text[end + 1..]),
        None => (text, &[]),
    }
}

/// Where the first line feed stands, if one does.
fn line_end(text: &[u8]) -> Option<usize>
    ensures { result ≡ position (λ byte. byte == 10) text.now }
{
    text.iter().position(|byte| *byte == b'\n')
}

/// Puts the frame of the message that a line holds behind the others; an empty line holds none.
fn add_line(alloc: Global, frames: &mut Vec<u8>, line: &[u8], number: u64) -> Result<(), HexFault>
    ensures ok { OnOk result ((is_bad_line line.now ≡ false) × (frames.new.items
        ≡ frames.old.items ++ framed (option_to_list (message_of_line line.now)))) }
    ensures fault { IfErr result (λ fault. (fault ≡ Memory)
        ⊎ ((fault ≡ BadLine number) × (is_bad_line line.now ≡ true))) }
{
    let digits = without_return(line);
    if digits.is_empty() {
        return Ok(());
    }
    let Some(message) = message_of(alloc, digits)? else {
        return Err(HexFault::BadLine(number));
    };
    add_frame(frames, message.as_slice())?;
    Ok(())
}

/// A line without the carriage return at its end.
fn without_return(line: &[u8]) -> &[u8]
    ensures { result.now ≡ spec.without_return line.now }
{
    line.strip_suffix(b"\r").unwrap_or(line)
}

/// The message that digits spell, if they spell one of 1 to 4,096 bytes.
fn message_of(alloc: Global, digits: &[u8]) -> Result<Option<Vec<u8>>, AllocError>
    ensures { IfOk result (λ message. MatchOption message
        (message_of_digits digits.now ≡ None)
        (λ bytes. message_of_digits digits.now ≡ Some bytes.items)) }
{
    let message = match hex::decode(alloc, digits) {
        Ok(message) => message,
        Err(FromHexError::OutOfMemory) => return Err(AllocError),
        Err(_) => return Ok(None),
    };
    if message.is_empty() || message.len() > LONGEST {
        return Ok(None);
    }
    Ok(Some(message))
}
