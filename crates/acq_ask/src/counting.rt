//! How many replies have each response code.

ghost use Rattle.std.specs.Prelude.{◌≡◌, ◌≤◌, ◌++◌, IfOk, OnOk, length};
ghost use Rattle.std.specs.List.{flat_map, list_any};
ghost use Rattle.acq_ask.specs.Codes.{count_line, count_of, counts_text, distinct, is_same};
ghost use Rattle.acq_ask.specs.Codes.{name_of, with_code};

use crate::reply_code::ReplyCode;
use itoa::Buffer;
use std::alloc::{AllocError, Global};

/// How many replies came to so many messages, and how many have each code, a line for each.
pub(crate) fn counts_text(
    alloc: Global,
    count: u64,
    codes: &[ReplyCode],
) -> Result<Vec<u8>, AllocError>
    ensures { IfOk result (λ text. text.items ≡ counts_text count codes.now) }
{
    let heading = format!(in alloc; "replies {} of {count}\n", codes.len())?;
    let mut text = Vec::from_slice(alloc, heading.as_bytes())?;
    let found = distinct(alloc, codes)?;
    put_lines(&mut text, codes, found.as_slice())?;
    Ok(text)
}

/// Each code once, in the order in which they first came.
fn distinct(alloc: Global, codes: &[ReplyCode]) -> Result<Vec<ReplyCode>, AllocError>
    ensures { IfOk result (λ found. found.items ≡ distinct codes.now) }
{
    let mut found = Vec::new(alloc);
    for code in codes {
        add_code(&mut found, *code)?;
    }
    Ok(found)
}

/// Adds a code, unless it is there.
fn add_code(found: &mut Vec<ReplyCode>, code: ReplyCode) -> Result<(), AllocError>
    ensures { OnOk result (found.new.items ≡ with_code found.old.items code) }
{
    if is_among(found.as_slice(), code) {
        return Ok(());
    }
    found.push(code)?;
    Ok(())
}

/// Whether a code is among these.
fn is_among(found: &[ReplyCode], code: ReplyCode) -> bool
    ensures { result ≡ list_any (is_same code) found.now }
{
    found.iter().any(|other| code.is_same(*other))
}

/// Puts the lines of these codes.
fn put_lines(text: &mut Vec<u8>, codes: &[ReplyCode], found: &[ReplyCode]) -> Result<(), AllocError>
    ensures { OnOk result (text.new.items
        ≡ text.old.items ++ flat_map (count_line codes.now) found.now) }
{
    for code in found {
        put_line(text, codes, *code)?;
    }
    Ok(())
}

/// Puts the line of a code.
fn put_line(text: &mut Vec<u8>, codes: &[ReplyCode], code: ReplyCode) -> Result<(), AllocError>
    ensures { OnOk result (text.new.items ≡ text.old.items ++ count_line codes.now code) }
{
    let mut digits = Buffer::new();
    put_name(text, code)?;
    text.extend_from_slice(b" ")?;
    text.extend_from_slice(digits.format(count_of(codes, code)).as_bytes())?;
    text.extend_from_slice(b"\n")
}

/// Puts the name of a code.
fn put_name(text: &mut Vec<u8>, code: ReplyCode) -> Result<(), AllocError>
    ensures { OnOk result (text.new.items ≡ text.old.items ++ name_of code) }
{
    match code {
        ReplyCode::Given(code) => {
            text.extend_from_slice(b"code ")?;
            text.extend_from_slice(&code)
        }
        ReplyCode::Missing => text.extend_from_slice(b"no code"),
    }
}

/// How many of them are this code.
fn count_of(codes: &[ReplyCode], code: ReplyCode) -> usize
    ensures value { result ≡ count_of codes.now code }
    ensures bound { result ≤ length codes.now }
{
    let mut count = 0;
    for other in codes {
        if code.is_same(*other) {
            count += 1;
        }
    }
    count
}
