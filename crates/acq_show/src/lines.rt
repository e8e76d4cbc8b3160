//! The lines of a message, or of a text that is none.

ghost use Rattle.std.specs.Prelude.{◌≡◌, ◌-◌, ◌++◌, IfOk, OnOk, length};
ghost use Rattle.iso_codec.specs.Message.{IsMessage};
ghost use Rattle.acq_show.specs.Names.{element_name};
ghost use Rattle.acq_show.specs.Shown.{shown, message_shown, type_line, element_line, fault_line};
ghost use Rattle.acq_show.specs.Shown.{name_words, spaces};
ghost use Rattle.acq_show.specs.Remarks.{message_remark};

use crate::contents::{put_content, put_repeated};
use crate::names::{class_name, element_name, function_name, is_named, origin_name};
use crate::remarks::put_message_remark;
use iso_codec::{DecodeFault, Message, decode, fault_place};
use itoa::Buffer;
use std::alloc::{AllocError, Global};

/// How wide the column of numbers is.
const NUMBER_WIDTH: usize = 5;

/// How wide the column of names is.
pub const NAME_WIDTH: usize = 34;

/// The elements of the profile have numbers from 2 to 128.
const LAST_ELEMENT: u8 = 128;

/// The text that a person is shown of a message, which is given without the link's two bytes of
/// length: its type and name, then each element's number, name and content, one a line; or one line
/// with the fault of what spells no message, and its place. Each line ends in a line feed.
pub fn show_message(alloc: Global, message: &[u8]) -> Result<Vec<u8>, AllocError>
    ensures { IfOk result (λ text. text.items ≡ shown message.now) }
{
    let fault = match decode(alloc, message) {
        Ok(decoded) => return remarked_text(alloc, &decoded),
        Err(fault) => fault,
    };
    match fault {
        DecodeFault::Memory => Err(AllocError),
        _ => fault_text(alloc, fault, fault_place(message, fault)),
    }
}

/// The lines of a message, and behind them why the host replies 30 to it, if that is told.
fn remarked_text(alloc: Global, message: &Message) -> Result<Vec<u8>, AllocError>
    requires { IsMessage message.now }
    ensures { IfOk result (λ text. text.items
        ≡ message_shown message.now ++ message_remark message.now) }
{
    let mut text = message_text(alloc, message)?;
    put_message_remark(&mut text, message)?;
    Ok(text)
}

/// The lines of a message.
fn message_text(alloc: Global, message: &Message) -> Result<Vec<u8>, AllocError>
    requires { IsMessage message.now }
    ensures { IfOk result (λ text. text.items ≡ message_shown message.now) }
{
    let mut text = Vec::new(alloc);
    put_type(&mut text, message.kind())?;
    for number in 2..LAST_ELEMENT + 1 {
        if let Some(content) = message.get(number) {
            put_element(&mut text, number, content)?;
        }
    }
    Ok(text)
}

/// Puts the line of a type.
fn put_type(text: &mut Vec<u8>, kind: [u8; 4]) -> Result<(), AllocError>
    ensures { OnOk result (text.new.items ≡ text.old.items ++ type_line kind) }
{
    let [version, class, function, origin] = kind;
    text.extend_from_slice(&kind)?;
    put_name_words(text, version, class, function, origin)?;
    text.extend_from_slice(b"\n")
}

/// Puts a space and the name of a type, where it has one.
fn put_name_words(
    text: &mut Vec<u8>,
    version: u8,
    class: u8,
    function: u8,
    origin: u8,
) -> Result<(), AllocError>
    ensures { OnOk result (text.new.items
        ≡ text.old.items ++ name_words version class function origin) }
{
    if !is_named(version, class, function, origin) {
        return Ok(());
    }
    text.extend_from_slice(b" ")?;
    text.extend_from_slice(class_name(class, function).as_bytes())?;
    text.extend_from_slice(b" ")?;
    text.extend_from_slice(function_name(function).as_bytes())?;
    text.extend_from_slice(origin_name(origin).as_bytes())
}

/// Puts the line of an element.
fn put_element(text: &mut Vec<u8>, number: u8, content: &[u8]) -> Result<(), AllocError>
    ensures { OnOk result (text.new.items
        ≡ text.old.items ++ element_line (number, content.now)) }
{
    let mut digits = Buffer::new();
    put_right(text, digits.format(number).as_bytes(), NUMBER_WIDTH)?;
    text.extend_from_slice(b"  ")?;
    put_left(text, element_name(number).as_bytes(), NAME_WIDTH)?;
    put_content(text, number, content)?;
    text.extend_from_slice(b"\n")
}

/// Puts a word to the right of a column.
fn put_right(text: &mut Vec<u8>, word: &[u8], width: usize) -> Result<(), AllocError>
    ensures { OnOk result (text.new.items
        ≡ text.old.items ++ (spaces (width - length word.now) ++ word.now)) }
{
    put_repeated(text, b' ', width.saturating_sub(word.len()))?;
    text.extend_from_slice(word)
}

/// Puts a word to the left of a column.
fn put_left(text: &mut Vec<u8>, word: &[u8], width: usize) -> Result<(), AllocError>
    ensures { OnOk result (text.new.items
        ≡ text.old.items ++ (word.now ++ spaces (width - length word.now))) }
{
    text.extend_from_slice(word)?;
    put_repeated(text, b' ', width.saturating_sub(word.len()))
}

/// The line of a text that spells no message.
fn fault_text(alloc: Global, fault: DecodeFault, place: usize) -> Result<Vec<u8>, AllocError>
    ensures { IfOk result (λ text. text.items ≡ fault_line fault place) }
{
    let number = fault.number();
    let element = fault.element();
    let line = format!(in alloc;
        "not a message: {fault} (fault {number} {element}), at byte {place}\n"
    )?;
    Vec::from_slice(alloc, line.as_bytes())
}
