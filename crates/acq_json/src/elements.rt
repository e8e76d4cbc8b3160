//! The elements that the members of a JSON object say.

ghost use Rattle.std.specs.Prelude.{◌≡◌, ◌⊎◌, Ok, Err, IfOk, IfErr};
ghost use Rattle.std.specs.Option.{option_map};
ghost use Rattle.std.specs.Str.{chars};
ghost use Rattle.json.specs.Value.{members_view, value_view};
ghost use Rattle.acq_make.specs.Contents.{is_hidden};
ghost use Rattle.acq_make.specs.declared.make_fault.MakeFault.TheVariants.{Memory};
ghost use Rattle.acq_json.specs.Said.{as_bytes, bytes_said, content_said, is_number, number_said};
ghost use Rattle.acq_json.specs.Said.{with_element, with_member, with_members};

use acq_make::MakeFault;
use acq_message::digits_value;
use iso_codec::{Message, SetFault, all_digits};
use json::Value;
use std::alloc::{AllocError, Global};

/// The most digits of an element's number.
const MOST_DIGITS: usize = 3;

/// The message with the elements that members say, in turn.
pub(crate) fn with_members(
    alloc: Global,
    line: u64,
    message: Message,
    members: &Vec<(&str, Value<'_>)>,
) -> Result<Message, MakeFault>
    ensures ok { IfOk result (λ next.
        with_members line message (members_view members.now.items) ≡ Ok next) }
    ensures fault { IfErr result (λ fault. (fault ≡ Memory)
        ⊎ (with_members line message (members_view members.now.items) ≡ Err fault)) }
{
    let mut whole = message;
    for member in members {
        whole = with_member(alloc, line, whole, member.0, &member.1)?;
    }
    Ok(whole)
}

/// The message with the element that a member says.
fn with_member(
    alloc: Global,
    line: u64,
    message: Message,
    name: &str,
    value: &Value<'_>,
) -> Result<Message, MakeFault>
    ensures ok { IfOk result (λ next.
        with_member line message name.now (value_view value.now) ≡ Ok next) }
    ensures fault { IfErr result (λ fault. (fault ≡ Memory)
        ⊎ (with_member line message name.now (value_view value.now) ≡ Err fault)) }
{
    let Some(number) = number_said(name.as_bytes()) else {
        return Err(MakeFault::BadLine(line));
    };
    match content_said(alloc, number, value)? {
        Some(content) => with_element(alloc, line, message, number, content.as_slice()),
        None => Err(MakeFault::BadLine(line)),
    }
}

/// The message with an element that it doesn't have.
fn with_element(
    alloc: Global,
    line: u64,
    mut message: Message,
    number: u8,
    content: &[u8],
) -> Result<Message, MakeFault>
    ensures ok { IfOk result (λ next. with_element line message number content.now ≡ Ok next) }
    ensures fault { IfErr result (λ fault. (fault ≡ Memory)
        ⊎ (with_element line message number content.now ≡ Err fault)) }
{
    if message.get(number).is_some() {
        return Err(MakeFault::BadLine(line));
    }
    match message.set(alloc, number, content) {
        Ok(()) => Ok(message),
        Err(SetFault::Memory) => Err(MakeFault::Memory),
        Err(fault) => Err(MakeFault::BadMessage(line, fault)),
    }
}

/// The number that a name is in its plain decimal form, if it is one of an element.
fn number_said(name: &[u8]) -> Option<u8>
    ensures { result ≡ number_said name.now }
{
    if name.len() > MOST_DIGITS || !all_digits(name) || name.starts_with(b"0") {
        return None;
    }
    let number = digits_value(name);
    if !(2..=128).contains(&number) {
        return None;
    }
    Some(number as u8)
}

/// The content that a value says, or `None` where it is no text of bytes, or what is shown in place
/// of a content.
fn content_said(alloc: Global, number: u8, value: &Value<'_>) -> Result<Option<Vec<u8>>, AllocError>
    ensures { IfOk result (λ content. option_map (λ bytes. bytes.items) content
        ≡ content_said number (value_view value.now)) }
{
    let Some(text) = value.as_str() else {
        return Ok(None);
    };
    let Some(content) = bytes_said(alloc, text)? else {
        return Ok(None);
    };
    if is_hidden(number, content.as_slice()) {
        return Ok(None);
    }
    Ok(Some(content))
}

/// Whether that is what `show` shows in place of an element's content.
fn is_hidden(number: u8, content: &[u8]) -> bool
    ensures { result ≡ is_hidden number content.now }
{
    (number == 45 || number == 55) && content.starts_with(b"(length ")
}

/// The bytes that a text's characters stand for, or `None` where one is above U+00FF.
pub(crate) fn bytes_said(alloc: Global, text: &str) -> Result<Option<Vec<u8>>, AllocError>
    ensures { IfOk result (λ bytes. option_map (λ b. b.items) bytes ≡ bytes_said text.now) }
{
    let characters: Vec<char> = characters(alloc, text)?;
    as_bytes(alloc, characters.as_slice())
}

fn characters(alloc: Global, text: &str) -> Result<Vec<char>, AllocError>
    ensures { IfOk result (λ characters. characters.items ≡ chars text.now) }
{
    text.chars().collect(alloc)
}

#[tactic(auto, using(crate::proofs::Characters::bytes_more, crate::proofs::Characters::no_byte))]
fn as_bytes(alloc: Global, characters: &[char]) -> Result<Option<Vec<u8>>, AllocError>
    ensures { IfOk result (λ bytes. option_map (λ b. b.items) bytes ≡ as_bytes characters.now) }
{
    let mut bytes = Vec::with_capacity(alloc, characters.len())?;
    for character in characters {
        let code = u32::from(*character);
        if code > 255 {
            return Ok(None);
        }
        bytes.push(code as u8)?;
    }
    Ok(Some(bytes))
}
