//! A message as a line of JSON.

ghost use Rattle.std.specs.Prelude.{◌≡◌, ◌++◌, ◌∷◌, [], IfOk, codes, decimal};
ghost use Rattle.json.specs.Json as json;
ghost use Rattle.json.specs.Token.{key, string};
ghost use Rattle.json.specs.Tree.{json_tokens};
ghost use Rattle.iso_codec.specs.Message.{IsMessage};
ghost use Rattle.iso_codec.specs.FaultPlaces.{fault_place};
ghost use Rattle.iso_codec.specs.FaultTexts.{number_of_fault, element_of_fault, text_of_fault};
ghost use Rattle.iso_codec.specs.Reading.{reading_of};
ghost use Rattle.acq_json.specs.Written.{Puts, characters, content_in, elements_json, fault_json};
ghost use Rattle.acq_json.specs.Written.{is_masked, json_line, line_of, message_json};
ghost use Rattle.acq_json.specs.Written.{reading_json};

use crate::card_form::CardForm;
use crate::members::{put_bytes, put_number, put_text};
use acq_show::put_content;
use iso_codec::{DecodeFault, Message, decode, fault_place};
use itoa::Buffer;
use json::Writer;
use std::alloc::{AllocError, Global};

/// The elements of the profile have numbers from 2 to 128.
const LAST_ELEMENT: u8 = 128;

/// The line of a message, which is given without the link's two bytes of length: a JSON object of
/// its type and its elements; or of the fault of what spells no message, and its place. It ends in
/// a line feed.
#[tactic(auto, unfolding(crate::specs::Written::json_line))]
pub fn json_of_message(alloc: Global, message: &[u8], form: CardForm) -> Result<Vec<u8>, AllocError>
    ensures { IfOk result (λ line. line.items ≡ json_line form message.now) }
{
    let mut writer = Writer::new(Vec::new(alloc));
    put_reading(alloc, &mut writer, message, form)?;
    let mut line = writer.into_inner();
    line.push(b'\n')?;
    Ok(line)
}

/// The line of fault 0, of no message, in these words.
pub(crate) fn json_of_fault(alloc: Global, words: &str) -> Result<Vec<u8>, AllocError>
    ensures { IfOk result (λ line. line.items ≡ line_of (fault_json 0 0 0 words.now)) }
{
    let mut writer = Writer::new(Vec::new(alloc));
    put_fault(&mut writer, 0, 0, 0, words)?;
    let mut line = writer.into_inner();
    line.push(b'\n')?;
    Ok(line)
}

/// Puts what a text reads as.
fn put_reading(
    alloc: Global,
    writer: &mut Writer,
    text: &[u8],
    form: CardForm,
) -> Result<(), AllocError>
    ensures { Puts result writer.old writer.new
        (json_tokens (reading_json form text.now (reading_of text.now))) }
{
    let fault = match decode(alloc, text) {
        Ok(message) => return put_message(alloc, writer, &message, form),
        Err(fault) => fault,
    };
    match fault {
        DecodeFault::Memory => Err(AllocError),
        _ => put_text_fault(alloc, writer, fault, fault_place(text, fault)),
    }
}

/// Puts the object of a message.
fn put_message(
    alloc: Global,
    writer: &mut Writer,
    message: &Message,
    form: CardForm,
) -> Result<(), AllocError>
    requires { IsMessage message.now }
    ensures { Puts result writer.old writer.new (json_tokens (message_json form message.now)) }
{
    writer.begin_object()?;
    put_bytes(alloc, writer, "type", &message.kind())?;
    writer.key("elements")?;
    put_elements(alloc, writer, message, form)?;
    writer.end_object()
}

/// Puts the object of a message's elements.
fn put_elements(
    alloc: Global,
    writer: &mut Writer,
    message: &Message,
    form: CardForm,
) -> Result<(), AllocError>
    requires { IsMessage message.now }
    ensures { Puts result writer.old writer.new
        (json_tokens (json.object (elements_json form message.now.elements))) }
{
    writer.begin_object()?;
    for number in 2..LAST_ELEMENT + 1 {
        if let Some(content) = message.get(number) {
            put_element(alloc, writer, number, content, form)?;
        }
    }
    writer.end_object()
}

/// Puts the member of an element.
fn put_element(
    alloc: Global,
    writer: &mut Writer,
    number: u8,
    content: &[u8],
    form: CardForm,
) -> Result<(), AllocError>
    ensures { Puts result writer.old writer.new (key (decimal number)
        ∷ string (characters (content_in form number content.now)) ∷ []) }
{
    let mut digits = Buffer::new();
    let name = digits.format(number);
    match form {
        CardForm::Masked if is_masked(number) => {
            let mut shown = Vec::new(alloc);
            put_content(&mut shown, number, content)?;
            put_bytes(alloc, writer, name, shown.as_slice())
        }
        _ => put_bytes(alloc, writer, name, content),
    }
}

/// Whether a card can be used by what an element says.
fn is_masked(number: u8) -> bool
    ensures { result ≡ is_masked number }
{
    matches!(number, 2 | 35 | 45 | 52 | 55)
}

/// Puts the object of a text's fault.
fn put_text_fault(
    alloc: Global,
    writer: &mut Writer,
    fault: DecodeFault,
    place: usize,
) -> Result<(), AllocError>
    ensures { Puts result writer.old writer.new (json_tokens (fault_json (number_of_fault fault)
        (element_of_fault fault) place (text_of_fault fault))) }
{
    let words = format!(in alloc; "{fault}")?;
    put_fault(
        writer,
        u64::from(fault.number()),
        u64::from(fault.element()),
        place as u64,
        words.as_str(),
    )
}

/// Puts the object of a fault: its number, its element and its place, and the fault in words.
fn put_fault(
    writer: &mut Writer,
    fault: u64,
    element: u64,
    place: u64,
    words: &str,
) -> Result<(), AllocError>
    ensures { Puts result writer.old writer.new
        (json_tokens (fault_json fault element place words.now)) }
{
    writer.begin_object()?;
    put_number(writer, "fault", fault)?;
    put_number(writer, "element", element)?;
    put_number(writer, "at", place)?;
    put_text(writer, "text", words)?;
    writer.end_object()
}
