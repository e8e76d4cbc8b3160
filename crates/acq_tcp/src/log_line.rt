//! Lines in logfmt.

use acq_reasons::Reason;
use itoa::Buffer;
use std::alloc::{AllocError, Global};

/// A line in logfmt: keys and their values, `key=value`, with a blank between two. It is kept in
/// one piece of memory, line after line. One that memory runs out for is lost whole.
#[derive(Drop)]
pub(crate) struct LogLine {
    text: Vec<u8>,
    is_lost: bool,
}

impl LogLine {
    /// No key yet.
    pub(crate) fn new(alloc: Global) -> LogLine {
        LogLine {
            text: Vec::new(alloc),
            is_lost: false,
        }
    }

    /// Begins the next line; behind a piece of one that was cut off with a line feed.
    pub(crate) fn begin(&mut self, is_behind_piece: bool) {
        self.text.clear();
        self.is_lost = is_behind_piece && self.text.push(b'\n').is_err();
    }

    /// Puts a key and its value, in quotes where it has anything but plain characters.
    pub(crate) fn put(&mut self, key: &str, value: &[u8]) {
        if put_pair(&mut self.text, key.as_bytes(), value).is_err() {
            self.is_lost = true;
        }
    }

    /// Puts a key and a number.
    pub(crate) fn put_number(&mut self, key: &str, number: u64) {
        self.put(key, Buffer::new().format(number).as_bytes());
    }

    /// Puts the reason of a reply: its word, with the number of its element behind it.
    pub(crate) fn put_why(&mut self, reason: &Reason) {
        self.put("why", reason.word().as_bytes());
        if let Some(number) = reason.element() {
            let mut digits = Buffer::new();
            let put = self.text.push(b'-').is_ok()
                && self
                    .text
                    .extend_from_slice(digits.format(number).as_bytes())
                    .is_ok();
            self.is_lost |= !put;
        }
    }

    /// The line with its line feed, unless memory ran out for it.
    pub(crate) fn ended(&mut self) -> Option<&[u8]> {
        if self.is_lost || self.text.push(b'\n').is_err() {
            return None;
        }
        Some(self.text.as_slice())
    }
}

/// Puts a key and its value behind others.
fn put_pair(text: &mut Vec<u8>, key: &[u8], value: &[u8]) -> Result<(), AllocError> {
    if text.last().is_some_and(|byte| *byte != b'\n') {
        text.push(b' ')?;
    }
    text.extend_from_slice(key)?;
    text.push(b'=')?;
    if is_plain(value) {
        text.extend_from_slice(value)
    } else {
        put_quoted(text, value)
    }
}

/// Whether a value needs no quotes: some printed characters, without blanks, quotes and `=`.
fn is_plain(value: &[u8]) -> bool {
    !value.is_empty()
        && value.iter().all(|byte| matches!(*byte, b'!' | b'#'..=b'<' | b'>'..=b'[' | b']'..=b'~'))
}

/// Puts a value in quotes: a `\` before each quote and `\` in it, and a `.` for what can't be
/// printed.
fn put_quoted(text: &mut Vec<u8>, value: &[u8]) -> Result<(), AllocError> {
    text.push(b'"')?;
    for byte in value {
        match *byte {
            b'"' | b'\\' => text.extend_from_slice(&[b'\\', *byte])?,
            b' '..=b'~' => text.push(*byte)?,
            _ => text.push(b'.')?,
        }
    }
    text.push(b'"')?;
    Ok(())
}
