//! What is shown of an element's content: no whole card number, and nothing else by which a card
//! can be used.

ghost use Rattle.std.specs.Prelude.{◌≡◌, ◌++◌, OnOk, replicate};
ghost use Rattle.acq_show.specs.Contents.{content_shown, number_shown, track_shown};
ghost use Rattle.acq_show.specs.Contents.{length_shown, byte_shown, printable, part_shown};
ghost use Rattle.acq_show.specs.Contents.{amounts_shown, original_shown, meaning_shown};

use crate::meanings::meaning;
use card_no::split_track2;
use itoa::Buffer;
use std::alloc::AllocError;

/// How many digits a card number has at least where its mask is shown. A shorter one's mask would
/// leave little of it out.
const LEAST_MASKED: usize = 13;

/// How many bytes the original data elements have.
const ORIGINAL_LEN: usize = 42;

/// How many bytes the replacement amounts have.
const AMOUNTS_LEN: usize = 42;

/// Puts what is shown of an element's content behind other bytes. After an `Err` a part of it may
/// stand there.
pub fn put_content(text: &mut Vec<u8>, number: u8, content: &[u8]) -> Result<(), AllocError>
    ensures { OnOk result (text.new.items
        ≡ text.old.items ++ content_shown number content.now) }
{
    match number {
        // the card number
        2 => put_number(text, content),
        // track 2
        35 => put_track(text, content),
        // track 1, the PIN block, chip data
        45 | 52 | 55 => put_length(text, content.len()),
        // the original of a reversal
        90 => put_original(text, content),
        // the replacement amounts
        95 => put_amounts(text, content),
        _ => {
            put_printable(text, content)?;
            put_meaning(text, meaning(number, content))
        }
    }
}

/// Puts what a content means, if that is known.
fn put_meaning(text: &mut Vec<u8>, words: &str) -> Result<(), AllocError>
    ensures { OnOk result (text.new.items ≡ text.old.items ++ meaning_shown words.now) }
{
    if words.is_empty() {
        return Ok(());
    }
    text.extend_from_slice(b": ")?;
    text.extend_from_slice(words.as_bytes())
}

/// Puts a card number masked: the first six digits, a `*` for each between, and the last four.
fn put_number(text: &mut Vec<u8>, number: &[u8]) -> Result<(), AllocError>
    ensures { OnOk result (text.new.items ≡ text.old.items ++ number_shown number.now) }
{
    let len = number.len();
    if len < LEAST_MASKED {
        return put_repeated(text, b'*', len);
    }
    text.extend_from_slice(&number[..6])?;
    put_repeated(text, b'*', len - 10)?;
    text.extend_from_slice(&number[len - 4..])
}

/// Puts track 2: its card number masked, and a `*` for each byte behind the separator.
fn put_track(text: &mut Vec<u8>, track: &[u8]) -> Result<(), AllocError>
    ensures { OnOk result (text.new.items ≡ text.old.items ++ track_shown track.now) }
{
    let Some((number, after)) = split_track2(track) else {
        return put_repeated(text, b'*', track.len());
    };
    put_number(text, number)?;
    text.extend_from_slice(b"=")?;
    put_repeated(text, b'*', after.len())
}

/// Puts the length of what is not shown.
pub(crate) fn put_length(text: &mut Vec<u8>, len: usize) -> Result<(), AllocError>
    ensures { OnOk result (text.new.items ≡ text.old.items ++ length_shown len) }
{
    let mut digits = Buffer::new();
    text.extend_from_slice(b"(length ")?;
    text.extend_from_slice(digits.format(len).as_bytes())?;
    text.extend_from_slice(b", not shown)")
}

/// Puts the replacement amounts, each behind its name.
fn put_amounts(text: &mut Vec<u8>, content: &[u8]) -> Result<(), AllocError>
    ensures { OnOk result (text.new.items ≡ text.old.items ++ amounts_shown content.now) }
{
    if content.len() != AMOUNTS_LEN {
        return put_printable(text, content);
    }
    let (amount, after) = content.split_at(12);
    let (settlement_amount, after) = after.split_at(12);
    let (fee, settlement_fee) = after.split_at(9);
    put_part(text, b"amount ", amount)?;
    put_part(text, b", settlement amount ", settlement_amount)?;
    put_part(text, b", fee ", fee)?;
    put_part(text, b", settlement fee ", settlement_fee)
}

/// Puts the original of a reversal, each of its parts behind its name.
fn put_original(text: &mut Vec<u8>, content: &[u8]) -> Result<(), AllocError>
    ensures { OnOk result (text.new.items ≡ text.old.items ++ original_shown content.now) }
{
    if content.len() != ORIGINAL_LEN {
        return put_printable(text, content);
    }
    let (kind, after) = content.split_at(4);
    let (trace, after) = after.split_at(6);
    let (transmitted, after) = after.split_at(10);
    let (acquirer, forwarder) = after.split_at(11);
    put_part(text, b"type ", kind)?;
    put_part(text, b", trace number ", trace)?;
    put_part(text, b", transmitted ", transmitted)?;
    put_part(text, b", acquirer ", acquirer)?;
    put_part(text, b", forwarder ", forwarder)
}

/// Puts a part of a content behind its name.
fn put_part(text: &mut Vec<u8>, name: &[u8], part: &[u8]) -> Result<(), AllocError>
    ensures { OnOk result (text.new.items ≡ text.old.items ++ part_shown name.now part.now) }
{
    text.extend_from_slice(name)?;
    put_printable(text, part)
}

/// Puts bytes, and a `.` for each that can't be printed.
pub(crate) fn put_printable(text: &mut Vec<u8>, content: &[u8]) -> Result<(), AllocError>
    ensures { OnOk result (text.new.items ≡ text.old.items ++ printable content.now) }
{
    for b in content {
        text.push(byte_shown(*b))?;
    }
    Ok(())
}

/// The byte, or a `.` where it can't be printed.
fn byte_shown(b: u8) -> u8
    ensures { result ≡ byte_shown b }
{
    if (b' '..=b'~').contains(&b) { b } else { b'.' }
}

/// Puts a byte so many times.
pub(crate) fn put_repeated(text: &mut Vec<u8>, b: u8, count: usize) -> Result<(), AllocError>
    ensures { OnOk result (text.new.items ≡ text.old.items ++ replicate count b) }
{
    for _ in 0..count {
        text.push(b)?;
    }
    Ok(())
}
