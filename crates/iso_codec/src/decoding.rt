//! Reading a message: its header, then the elements that it names, each fault in its order.

ghost use Rattle.std.specs.Prelude.{◌≡◌, ◌⊎◌, ◌<◌, true, length, take};
ghost use Rattle.std.specs.Prelude.{IfOk, IfErr, IfSome, IfNone, MatchResult};
ghost use Rattle.std.specs.List.{list_all};
ghost use Rattle.iso_codec.specs.declared.decode_fault.DecodeFault.TheVariants.{Memory};
ghost use Rattle.iso_codec.specs.Message.{IsoMessage, Reads, named};
ghost use Rattle.iso_codec.specs.Span.{elements_in, is_within};
ghost use Rattle.iso_codec.specs.Reading.{reading_of};
ghost use Rattle.iso_codec.specs.Faults.{FirstFault, HasHeader, NeedsMemory, ElementsFault, IsBody};
ghost use Rattle.iso_codec.specs.Faults.{BitmapFault, BeginsWithBitmap, IsFirstUnknown, is_known};

use crate::bitmap_digits::bits_of_digits;
use crate::bitmaps::{Bitmaps, bit};
use crate::classes::{all_digits, all_hex};
use crate::content::content_at;
use crate::decode_fault::DecodeFault;
use crate::element_format::format_at;
use crate::message::Message;
use crate::span::Span;
use std::alloc::Global;

/// A bitmap, and what stands after it.
pub(crate) fn bitmap_at(rest: &[u8]) -> Result<(u64, &[u8]), DecodeFault>
    ensures found { IfOk result (λ x. BeginsWithBitmap rest.now x.0 x.1.now) }
    ensures fault { IfErr result (λ f. BitmapFault rest.now f) }
{
    if rest.len() < 16 {
        return Err(DecodeFault::Truncated(0));
    }
    let (digits, after) = rest.split_at(16);
    if !all_hex(digits) {
        return Err(DecodeFault::BadBitmap);
    }
    Ok((bits_of_digits(digits), after))
}

/// The type and the bitmaps, and what stands after them.
fn header_at(text: &[u8]) -> Result<([u8; 4], Bitmaps, &[u8]), DecodeFault>
    ensures found { IfOk result (λ x. HasHeader text.now x.0 x.1 x.2.now) }
    ensures fault { IfErr result (λ f. FirstFault text.now f) }
{
    let [a, b, c, d, rest @ ..] = text else {
        return Err(DecodeFault::Truncated(0));
    };
    let kind = [*a, *b, *c, *d];
    if !all_digits(&kind) {
        return Err(DecodeFault::BadType);
    }
    let (primary, after) = bitmap_at(rest)?;
    if bit(primary, 1) {
        let (secondary, body) = bitmap_at(after)?;
        Ok((kind, Bitmaps { primary, secondary }, body))
    } else {
        let secondary = 0;
        Ok((kind, Bitmaps { primary, secondary }, after))
    }
}

/// The first element that bitmaps name and the table doesn't have.
fn first_unknown(bitmaps: &Bitmaps) -> Option<u8>
    ensures none { IfNone result (list_all is_known (named bitmaps.now) ≡ true) }
    ensures some { IfSome result (λ n. IsFirstUnknown bitmaps.now n) }
{
    let mut unknown = bitmaps.of_unknown();
    unknown.take_first()
}

/// The spans of the elements that bitmaps name, which are all of the bytes.
fn spans_of(alloc: Global, bitmaps: &Bitmaps, body: &[u8]) -> Result<Vec<Span>, DecodeFault>
    requires { list_all is_known (named bitmaps.now) ≡ true }
    ensures found { IfOk result (λ spans. IsBody bitmaps.now body.now
        (elements_in body.now spans.items)) }
    ensures within { IfOk result (λ spans. list_all (is_within (length body.now)) spans.items
        ≡ true) }
    ensures fault { IfErr result (λ f. ElementsFault bitmaps.now body.now f) }
{
    let mut spans = Vec::with_capacity(alloc, bitmaps.count())?;
    let mut left = bitmaps.of_elements();
    let mut rest = body;
    while let Some(number) = left.take_first() {
        let Some(format) = format_at(number) else {
            unreachable!();
        };
        let (content, after) = content_at(number, format, rest)?;
        spans.push(Span {
            number,
            start: body.len() - after.len() - content.len(),
            len: content.len(),
        })?;
        rest = after;
    }
    if !rest.is_empty() {
        return Err(DecodeFault::Trailing);
    }
    Ok(spans)
}

fn read(alloc: Global, text: &[u8]) -> Result<Message, DecodeFault>
    ensures found { IfOk result (λ m. Reads text.now m) }
    ensures fault { IfErr result (λ f. (f ≡ Memory) ⊎ FirstFault text.now f) }
    ensures memory { IfErr result (λ f. f ≡ Memory → NeedsMemory text.now) }
{
    let (kind, bitmaps, body) = header_at(text)?;
    if let Some(number) = first_unknown(&bitmaps) {
        return Err(DecodeFault::UnknownElement(number));
    }
    let spans = spans_of(alloc, &bitmaps, body)?;
    let bytes = Vec::from_slice(alloc, body)?;
    Ok(Message::with_spans(kind, spans, bytes))
}

/// The message that a text spells, or the first of its faults in the profile's order.
pub fn decode(alloc: Global, text: &[u8]) -> Result<Message, DecodeFault>
    // What is read is spelled so.
    ensures found { IfOk result (λ m. Reads text.now m) }
    // A fault is the first.
    ensures fault { IfErr result (λ f. (f ≡ Memory) ⊎ FirstFault text.now f) }
    // With a fault no message is spelled.
    ensures none { IfErr result (λ f. (f ≡ Memory) ⊎ ((m : IsoMessage) → Reads text.now m → ⊥)) }
    // What is spelled is read, unless memory runs out.
    ensures only { (m : IsoMessage) → Reads text.now m
        → MatchResult result (λ found. found ≡ m) (λ f. f ≡ Memory) }
    // It is what the text reads as, unless memory runs out.
    ensures exact { MatchResult result (λ m. reading_of text.now ≡ Ok m)
        (λ f. (f ≡ Memory) ⊎ (reading_of text.now ≡ Err f)) }
    // Memory is taken only behind a header that stands and names elements of the profile alone.
    ensures memory { IfErr result (λ f. f ≡ Memory → NeedsMemory text.now) }
{
    read(alloc, text)
}
