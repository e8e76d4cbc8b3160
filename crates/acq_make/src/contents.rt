//! The content that a line says.

ghost use Rattle.std.specs.Prelude.{◌≡◌, IfOk, drop, take};
ghost use Rattle.std.specs.Option.{option_map};
ghost use Rattle.acq_make.specs.Contents.{content_said, is_hidden, parts_at, unshown, without_meaning};
ghost use Rattle.acq_make.specs.Contents.{code_size};

use acq_show::put_content;
use std::alloc::{AllocError, Global};

/// Where `show` prints the parts of the original data elements, and of the replacement amounts: how
/// many bytes stand before each, and how many bytes it has.
const ORIGINAL_PARTS: [(usize, usize); 5] = [(5, 4), (24, 6), (44, 10), (65, 11), (88, 11)];

const AMOUNT_PARTS: [(usize, usize); 4] = [(7, 12), (39, 12), (57, 9), (83, 9)];

/// The content that an element's text says, or `None` where `show` shows no content there.
#[tactic(auto, unfolding(crate::specs::Contents::content_said))]
pub(crate) fn content_said(
    alloc: Global,
    number: u8,
    text: &[u8],
) -> Result<Option<Vec<u8>>, AllocError>
    ensures { IfOk result (λ content.
        option_map (λ bytes. bytes.items) content ≡ content_said number text.now) }
{
    if is_hidden(number, text) {
        return Ok(None);
    }
    let content = match number {
        90 => unshown(alloc, number, &ORIGINAL_PARTS, text)?,
        95 => unshown(alloc, number, &AMOUNT_PARTS, text)?,
        _ => Vec::from_slice(alloc, without_meaning(number, text))?,
    };
    Ok(Some(content))
}

/// Whether `show` shows the length in place of the content.
fn is_hidden(number: u8, text: &[u8]) -> bool
    ensures { result ≡ is_hidden number text.now }
{
    (number == 45 || number == 55) && text.starts_with(b"(length ")
}

/// A text without what `show` says that a code means.
fn without_meaning(number: u8, text: &[u8]) -> &[u8]
    ensures { result.now ≡ without_meaning number text.now }
{
    let Some(size) = code_size(number) else {
        return text;
    };
    if text.len() < size || !text[size..].starts_with(b": ") {
        return text;
    }
    &text[..size]
}

/// How many bytes a code has behind which `show` says what it means.
fn code_size(number: u8) -> Option<usize>
    ensures { result ≡ code_size number }
{
    match number {
        3 => Some(6),
        39 => Some(2),
        66 => Some(1),
        70 => Some(3),
        _ => None,
    }
}

/// The parts of a text at these places, if the text is what `show` shows of them; else the text.
#[tactic(auto, unfolding(crate::specs::Contents::unshown))]
fn unshown(
    alloc: Global,
    number: u8,
    places: &[(usize, usize)],
    text: &[u8],
) -> Result<Vec<u8>, AllocError>
    ensures { IfOk result (λ content. content.items ≡ unshown number places.now text.now) }
{
    let parts = parts_at(alloc, places, text)?;
    let mut shown = Vec::new(alloc);
    put_content(&mut shown, number, parts.as_slice())?;
    if shown.as_slice() == text {
        return Ok(parts);
    }
    Vec::from_slice(alloc, text)
}

/// The parts of a text at these places, one behind another.
fn parts_at(alloc: Global, places: &[(usize, usize)], text: &[u8]) -> Result<Vec<u8>, AllocError>
    ensures { IfOk result (λ parts. parts.items ≡ parts_at places.now text.now) }
{
    let mut parts = Vec::new(alloc);
    for (start, size) in places {
        parts.extend_from_slice(part_at(text, *start, *size))?;
    }
    Ok(parts)
}

/// The part of a text from a place on, of so many bytes or of what is there.
fn part_at(text: &[u8], start: usize, size: usize) -> &[u8]
    ensures { result.now ≡ take size (drop start text.now) }
{
    let from = &text[start.min(text.len())..];
    &from[..size.min(from.len())]
}
