//! Where the first fault of a text stands.

ghost use Rattle.std.specs.Prelude.{◌≡◌, drop, option_map};
ghost use Rattle.std.specs.Option.{option_copied};
ghost use Rattle.std.specs.Result.{result_ok};
ghost use Rattle.iso_codec.specs.Reading.{bitmaps_at};
ghost use Rattle.iso_codec.specs.FaultPlaces.{standing_from, element_place, fault_place};

use crate::bitmaps::{Bitmaps, bit};
use crate::content::content_at;
use crate::decode_fault::DecodeFault;
use crate::decoding::bitmap_at;
use crate::element_format::format_at;

/// How many digits the type has, behind which the first bitmap stands.
const TYPE_LEN: usize = 4;

/// Where the second bitmap stands.
const SECOND_BITMAP: usize = 20;

/// A number above each element's.
const PAST_THE_LAST: u8 = 129;

/// How many bytes of a text stand before the piece at its first fault: the type, the bitmap that is
/// not hexadecimal or names an unknown element, the element with its length, the first byte behind
/// the last element; where the text ends in the type or a bitmap, its length. It takes no memory.
pub fn fault_place(text: &[u8], fault: DecodeFault) -> usize
    ensures { result ≡ fault_place text.now fault }
{
    match fault {
        DecodeFault::Memory | DecodeFault::BadType => 0,
        DecodeFault::BadBitmap => match bitmap_at(behind_type(text)) {
            Ok(_) => SECOND_BITMAP,
            Err(_) => TYPE_LEN,
        },
        DecodeFault::UnknownElement(number) => {
            if number <= 64 {
                TYPE_LEN
            } else {
                SECOND_BITMAP
            }
        }
        DecodeFault::Truncated(0) => text.len(),
        DecodeFault::Truncated(number)
        | DecodeFault::BadLength(number)
        | DecodeFault::BadContent(number) => element_place(text, number),
        DecodeFault::Trailing => element_place(text, PAST_THE_LAST),
    }
}

/// How many bytes of a text stand before an element.
fn element_place(text: &[u8], number: u8) -> usize
    ensures { result ≡ element_place number text.now }
{
    match standing_from(text, number) {
        Some(rest) => text.len().saturating_sub(rest.len()),
        None => text.len(),
    }
}

/// What stands behind the type, the bitmaps, and the elements of lower numbers.
fn standing_from(text: &[u8], number: u8) -> Option<&[u8]>
    ensures { option_copied result ≡ result_ok (standing_from number text.now) }
{
    let Some((bitmaps, body)) = bitmaps_at(behind_type(text)) else {
        return None;
    };
    let mut left = bitmaps.of_elements();
    let mut rest = body;
    while let Some(lower) = left.take_first() {
        if lower >= number {
            return Some(rest);
        }
        let Some(format) = format_at(lower) else {
            return None;
        };
        let Ok((_, after)) = content_at(lower, format, rest) else {
            return None;
        };
        rest = after;
    }
    Some(rest)
}

/// The bitmaps, and what stands behind them.
fn bitmaps_at(rest: &[u8]) -> Option<(Bitmaps, &[u8])>
    ensures { option_map (λ x. (x.0, x.1.now)) result ≡ result_ok (bitmaps_at rest.now) }
{
    let Ok((primary, after)) = bitmap_at(rest) else {
        return None;
    };
    if !bit(primary, 1) {
        let secondary = 0;
        return Some((Bitmaps { primary, secondary }, after));
    }
    let Ok((secondary, body)) = bitmap_at(after) else {
        return None;
    };
    Some((Bitmaps { primary, secondary }, body))
}

/// What stands behind the type.
fn behind_type(text: &[u8]) -> &[u8]
    ensures { result.now ≡ drop 4 text.now }
{
    if text.len() < TYPE_LEN {
        &[]
    } else {
        &text[TYPE_LEN..]
    }
}
