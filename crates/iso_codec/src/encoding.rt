//! Writing a message: its one spelling, with bitmaps in capitals.

ghost use Rattle.std.specs.Prelude.{◌≡◌, ◌+◌, ◌<◌, ◌≤◌, ◌==◌, ◌||◌, ℕ, List, true, false, length};
ghost use Rattle.std.specs.Prelude.{◌++◌, OnOk, OnErr};
ghost use Rattle.std.specs.List.{list_all};
ghost use Rattle.iso_codec.specs.Content.{digits_of, has_length};
ghost use Rattle.iso_codec.specs.Message.{Writes, AreBitmaps, bit as bit_of, is_element};
ghost use Rattle.iso_codec.specs.Message.{spelled, body, is_upper_hex};
ghost use Rattle.iso_codec.specs.Reading.{spelling, Extends};
ghost use Rattle.iso_codec.specs.Setting.{Marks, is_sound};
ghost use Rattle.iso_codec.specs.Span.{elements_in, numbers_of, is_within};
ghost use Rattle.std.specs.Int.{is_in_range};

use crate::bitmap_digits::digits_of_bits;
use crate::bitmaps::{Bitmaps, bit};
use crate::element_format::format_at;
use crate::form::Form;
use crate::message::Message;
use crate::span::{Span, bytes_at};
use std::alloc::{AllocError, Global};

/// The bits with one more, the leftmost of which is number 1.
fn with_bit(bits: u64, number: u8) -> u64
    requires low { 1 ≤ number }
    requires high { number ≤ 64 }
    ensures { (k : ℕ) → 1 ≤ k → k ≤ 64 → bit_of result k ≡ (bit_of bits k || k == number) }
{
    bits | (1 << (64 - number))
}

/// The bitmaps that name these elements.
fn bitmaps_of(spans: &[Span]) -> Bitmaps
    requires { list_all (is_in_range 2 128) (numbers_of spans.now) ≡ true }
    ensures { Marks (numbers_of spans.now) result }
{
    let mut primary = 0;
    let mut secondary = 0;
    for span in spans {
        let number = span.number;
        if number <= 64 {
            primary = with_bit(primary, number);
        } else {
            primary = with_bit(primary, 1);
            secondary = with_bit(secondary, number - 64);
        }
    }
    Bitmaps { primary, secondary }
}

fn push_bitmaps(out: &mut Vec<u8>, bitmaps: Bitmaps) -> Result<(), AllocError>
    requires { bit_of bitmaps.primary 1 ≡ false → bitmaps.secondary ≡ 0 }
    ensures ok { OnOk result ((digits : List ℕ) × AreBitmaps digits bitmaps
        × (list_all is_upper_hex digits ≡ true) × (out.new.items ≡ out.old.items ++ digits)) }
    ensures grows { Extends out.old.items out.new.items }
{
    out.extend_from_slice(&digits_of_bits(bitmaps.primary))?;
    if bit(bitmaps.primary, 1) {
        out.extend_from_slice(&digits_of_bits(bitmaps.secondary))?;
    }
    Ok(())
}

fn digit(value: usize) -> u8
    requires { value < 10 }
    ensures { result ≡ 48 + value }
{
    b'0' + value as u8
}

fn push_length(out: &mut Vec<u8>, form: Form, len: usize) -> Result<(), AllocError>
    requires sound { is_sound form ≡ true }
    requires fits { has_length form len ≡ true }
    ensures ok { OnOk result (out.new.items ≡ out.old.items ++ digits_of form len) }
    ensures grows { Extends out.old.items out.new.items }
{
    match form {
        Form::Fixed(_) => Ok(()),
        Form::Llvar(_) => out.extend_from_slice(&[digit(len / 10), digit(len % 10)]),
        Form::Lllvar(_) => {
            out.extend_from_slice(&[digit(len / 100), digit(len / 10 % 10), digit(len % 10)])
        }
    }
}

fn push_element(out: &mut Vec<u8>, number: u8, content: &[u8]) -> Result<(), AllocError>
    requires { is_element (number, content.now) ≡ true }
    ensures ok { OnOk result (out.new.items ≡ out.old.items ++ spelled (number, content.now)) }
    ensures grows { Extends out.old.items out.new.items }
{
    let Some(format) = format_at(number) else {
        unreachable!();
    };
    push_length(out, format.form, content.len())?;
    out.extend_from_slice(content)
}

fn push_body(out: &mut Vec<u8>, spans: &[Span], bytes: &[u8]) -> Result<(), AllocError>
    requires within { list_all (is_within (length bytes.now)) spans.now ≡ true }
    requires each { list_all is_element (elements_in bytes.now spans.now) ≡ true }
    ensures ok { OnOk result (out.new.items
        ≡ out.old.items ++ body (elements_in bytes.now spans.now)) }
    ensures grows { Extends out.old.items out.new.items }
{
    for span in spans {
        push_element(out, span.number, bytes_at(bytes, *span))?;
    }
    Ok(())
}

/// Room for the type, two bitmaps, and the digits of a length before each element.
fn room(spans: &[Span], bytes: &[u8]) -> usize {
    bytes
        .len()
        .saturating_add(spans.len().saturating_mul(3))
        .saturating_add(36)
}

fn push_message(message: &Message, out: &mut Vec<u8>) -> Result<(), AllocError>
    ensures ok { OnOk result ((text : List ℕ) × Writes text message.now
        × (out.new.items ≡ out.old.items ++ text)) }
    ensures grows { Extends out.old.items out.new.items }
{
    let (spans, bytes) = message.parts();
    let bitmaps = bitmaps_of(spans);
    out.reserve(room(spans, bytes))?;
    out.extend_from_slice(&message.kind())?;
    push_bitmaps(out, bitmaps)?;
    push_body(out, spans, bytes)
}

/// Writes a message at the end. An `Err` changes nothing.
pub fn encode(alloc: Global, message: &Message, out: &mut Vec<u8>) -> Result<(), AllocError>
    ensures written { OnOk result ((text : List ℕ) × Writes text message.now
        × (out.new.items ≡ out.old.items ++ text)) }
    // What is written is the message's spelling.
    ensures exact { OnOk result (out.new.items ≡ out.old.items ++ spelling message.now) }
    ensures err { OnErr result (out.new.items ≡ out.old.items) }
{
    let len = out.len();
    let pushed = push_message(message, out);
    if pushed.is_err() {
        out.truncate(len);
    }
    pushed
}
