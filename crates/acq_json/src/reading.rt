//! The messages that lines of JSON say.

ghost use Rattle.std.specs.Prelude.{◌≡◌, ◌⊎◌, ◌++◌, ◌∷◌, [], List, Ok, Err, IfOk, IfErr, OnOk, true};
ghost use Rattle.std.specs.Option.{option_map};
ghost use Rattle.json.specs.Find.{as_object};
ghost use Rattle.json.specs.Value.{members_view, value_view};
ghost use Rattle.iso_codec.specs.Message.{IsoMessage};
ghost use Rattle.iso_codec.specs.Reading.{spelling};
ghost use Rattle.acq_link.specs.Frames.{fits_frame};
ghost use Rattle.acq_make.specs.Written.{written};
ghost use Rattle.acq_make.specs.declared.make_fault.MakeFault.TheVariants.{Memory};
ghost use Rattle.acq_json.specs.Said.{begun, bytes_said, is_blank, line_said, message_said};
ghost use Rattle.acq_json.specs.Said.{messages_said, of_parts, parts_said, sent};

use crate::elements::{bytes_said, with_members};
use acq_link::LONGEST_MESSAGE;
use acq_make::{MadeForm, MakeFault, put_made};
use acq_show::{line_at, without_return};
use iso_codec::{Message, SetFault, encode};
use json::{Error, Scratch, Value};
use std::alloc::Global;

/// The messages that lines of JSON say (`specs/Said.antt`), one behind another in this form: one
/// each line that isn't blank, as `json_of_message` gives it, whole.
pub fn make_of_json(alloc: Global, form: &MadeForm, text: &[u8]) -> Result<Vec<u8>, MakeFault>
    // What is written are the spellings of the messages that the lines say.
    ensures made { IfOk result (λ out. (messages : List IsoMessage)
        × (messages_said text.now ≡ Ok messages) × (out.items ≡ written form.now messages)) }
    // A fault is the text's first one, or memory ran out.
    ensures fault { IfErr result (λ fault. (fault ≡ Memory)
        ⊎ (messages_said text.now ≡ Err fault)) }
{
    let mut out = Vec::new(alloc);
    let mut rest = text;
    let mut number = 0;
    while !rest.is_empty() {
        let (line, after) = line_at(rest);
        number += 1;
        take_line(alloc, form, &mut out, number, without_return(line))?;
        rest = after;
    }
    Ok(out)
}

/// Takes a line.
#[tactic(auto, unfolding(crate::specs::Said::line_said))]
fn take_line(
    alloc: Global,
    form: &MadeForm,
    out: &mut Vec<u8>,
    number: u64,
    line: &[u8],
) -> Result<(), MakeFault>
    ensures said { OnOk result ((more : List IsoMessage) × (line_said number line.now ≡ Ok more)
        × (out.new.items ≡ out.old.items ++ written form.now more)) }
    ensures fault { IfErr result (λ fault. (fault ≡ Memory)
        ⊎ (line_said number line.now ≡ Err fault)) }
{
    if is_blank(line) {
        return Ok(());
    }
    let message = message_said(alloc, number, line)?;
    put_message(alloc, form, out, &message)
}

/// Puts a message that a frame can have behind others.
fn put_message(
    alloc: Global,
    form: &MadeForm,
    out: &mut Vec<u8>,
    message: &Message,
) -> Result<(), MakeFault>
    requires { fits_frame (spelling message.now) ≡ true }
    ensures written { OnOk result (out.new.items
        ≡ out.old.items ++ written form.now (message.now ∷ [])) }
    ensures memory { IfErr result (λ fault. fault ≡ Memory) }
{
    let mut text = Vec::new(alloc);
    encode(alloc, message, &mut text)?;
    put_made(alloc, form, out, text.as_slice())?;
    Ok(())
}

/// Whether a line says nothing.
fn is_blank(line: &[u8]) -> bool
    ensures { result ≡ is_blank line.now }
{
    line.iter().all(|byte| *byte == b' ')
}

/// The message that a text on a line says.
#[tactic(auto, unfolding(crate::specs::Said::value_said))]
fn message_said(alloc: Global, number: u64, text: &[u8]) -> Result<Message, MakeFault>
    ensures ok { IfOk result (λ message. message_said number text.now ≡ Ok message) }
    ensures fits { IfOk result (λ message. fits_frame (spelling message) ≡ true) }
    ensures fault { IfErr result (λ fault. (fault ≡ Memory)
        ⊎ (message_said number text.now ≡ Err fault)) }
{
    let Ok(text) = str::from_utf8(text) else {
        return Err(MakeFault::BadLine(number));
    };
    let mut scratch = Scratch::new(alloc);
    match Value::parse(alloc, text, &mut scratch) {
        Ok(value) => of_value(alloc, number, &value),
        Err(Error::Invalid) => Err(MakeFault::BadLine(number)),
        Err(_) => Err(MakeFault::Memory),
    }
}

/// The message that a value says.
fn of_value(alloc: Global, number: u64, value: &Value<'_>) -> Result<Message, MakeFault>
    ensures ok { IfOk result (λ message.
        of_parts number (parts_said (value_view value.now)) ≡ Ok message) }
    ensures fits { IfOk result (λ message. fits_frame (spelling message) ≡ true) }
    ensures fault { IfErr result (λ fault. (fault ≡ Memory)
        ⊎ (of_parts number (parts_said (value_view value.now)) ≡ Err fault)) }
{
    let Some((kind, elements)) = parts_said(value) else {
        return Err(MakeFault::BadLine(number));
    };
    let first = begun(alloc, number, kind)?;
    let whole = with_members(alloc, number, first, elements)?;
    sent(alloc, number, whole)
}

/// The type and the elements of a message's object.
fn parts_said<'v, 'a>(value: &'v Value<'a>) -> Option<(&'a str, &'v Vec<(&'a str, Value<'a>)>)>
    ensures { option_map (λ parts. (parts.0.now, members_view parts.1.now.items)) result
        ≡ parts_said (value_view value.now) }
{
    if members_of(value)?.len() != 2 {
        return None;
    }
    let kind = value.get("type")?.as_str()?;
    let elements = members_of(value.get("elements")?)?;
    Some((kind, elements))
}

fn members_of<'v, 'a>(value: &'v Value<'a>) -> Option<&'v Vec<(&'a str, Value<'a>)>>
    ensures { option_map (λ members. members_view members.now.items) result
        ≡ as_object (value_view value.now) }
{
    match value {
        Value::Object(members) => Some(members),
        _ => None,
    }
}

/// A message without elements, if a text is a type.
fn begun(alloc: Global, number: u64, kind: &str) -> Result<Message, MakeFault>
    ensures ok { IfOk result (λ first. begun number (bytes_said kind.now) ≡ Ok first) }
    ensures fault { IfErr result (λ fault. (fault ≡ Memory)
        ⊎ (begun number (bytes_said kind.now) ≡ Err fault)) }
{
    let Some(kind) = bytes_said(alloc, kind)? else {
        return Err(MakeFault::BadLine(number));
    };
    let [a, b, c, d] = kind.as_slice() else {
        return Err(MakeFault::BadLine(number));
    };
    match Message::new(alloc, [*a, *b, *c, *d]) {
        Some(message) => Ok(message),
        None => Err(MakeFault::BadLine(number)),
    }
}

/// The message, if a frame can have it.
fn sent(alloc: Global, number: u64, message: Message) -> Result<Message, MakeFault>
    ensures ok { IfOk result (λ whole. sent number message ≡ Ok whole) }
    ensures fits { IfOk result (λ whole. fits_frame (spelling whole) ≡ true) }
    ensures fault { IfErr result (λ fault. (fault ≡ Memory) ⊎ (sent number message ≡ Err fault)) }
{
    let mut text = Vec::new(alloc);
    encode(alloc, &message, &mut text)?;
    if !fits_frame(text.as_slice()) {
        return Err(MakeFault::BadMessage(number, SetFault::BadLength(0)));
    }
    Ok(message)
}

/// Whether a message has 1 to 4,096 bytes.
fn fits_frame(text: &[u8]) -> bool
    ensures { result ≡ fits_frame text.now }
{
    !text.is_empty() && text.len() <= LONGEST_MESSAGE
}
