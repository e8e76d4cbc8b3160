//! Lines out of a stream that comes in pieces.

ghost use Rattle.std.specs.Prelude.{◌≡◌, ◌==◌, ◌+◌, ◌-◌, ◌≤◌, ◌++◌, [], length, drop, take};
ghost use Rattle.std.specs.Prelude.{IfNone, IfOk, IfSome, OnErr, OnOk};
ghost use Rattle.std.specs.List.{list_all, position};
ghost use Rattle.acq_control.specs.Lines.{BeginsWithLine, IsInLine, is_in_line, longest_line};

use std::alloc::{AllocError, Global};
use std::marker::Model;

/// The most bytes of a line, with its line feed.
const LONGEST_LINE: usize = 16_384;

/// Takes lines out of a stream that comes in pieces. It neither reads nor writes: it is fed, and
/// holds what belongs to no line yet. Contracts see the list of these bytes.
#[derive(Drop)]
pub(crate) struct LineBuffer {
    bytes: [u8; LONGEST_LINE],
    /// Where what it holds begins: a line that is taken leaves the others where they stand.
    start: usize,
    end: usize,
}

impl Model for LineBuffer {
    ghost use Rattle.std.specs.Prelude.{◌≤◌, ◌-◌, ℕ, List, drop, take};
    ghost use Rattle.acq_control.specs.Lines.{longest_line};

    ghost Value = { List ℕ };

    ghost view = { λ b. take (b.end - b.start) (drop b.start b.bytes) };

    ghost invariant = { λ b. (b.start ≤ b.end) × (b.end ≤ longest_line) };
}

impl LineBuffer {
    /// No byte yet. It takes no memory.
    pub(crate) fn new() -> LineBuffer
        ensures { result ≡ [] }
    {
        LineBuffer {
            bytes: [0; LONGEST_LINE],
            start: 0,
            end: 0,
        }
    }

    /// Whether it holds nothing.
    pub(crate) fn is_empty(&self) -> bool
        ensures { result ≡ (length self.now == 0) }
    {
        self.start == self.end
    }

    /// Whether no line of it is whole.
    pub(crate) fn is_in_line(&self) -> bool
        ensures { result ≡ list_all is_in_line self.now }
    {
        self.as_slice().iter().all(|byte| *byte != b'\n')
    }

    /// What it holds.
    pub(crate) fn as_slice(&self) -> &[u8]
        ensures { result.now ≡ self.now }
    {
        &self.bytes[self.start..self.end]
    }

    /// How many bytes it has room for.
    pub(crate) fn room(&self) -> usize
        ensures { result + length self.now ≡ longest_line }
    {
        LONGEST_LINE - (self.end - self.start)
    }

    /// Takes in the next piece of the stream.
    pub(crate) fn feed(&mut self, piece: &[u8])
        requires { length self.old + length piece.now ≤ longest_line }
        ensures { self.new ≡ self.old ++ piece.now }
    {
        let held = self.end - self.start;
        let end = held + piece.len();
        move_to_front(&mut self.bytes, self.start, self.end);
        self.bytes[held..end].copy_from_slice(piece);
        self.start = 0;
        self.end = end;
    }

    /// Drops all that it holds.
    pub(crate) fn clear(&mut self)
        ensures { self.new ≡ [] }
    {
        self.start = self.end;
    }

    /// Takes out the line in front, if it is whole, without its line feed. After an `Err` nothing
    /// has changed.
    pub(crate) fn take_line(&mut self, alloc: Global) -> Result<Option<Vec<u8>>, AllocError>
        ensures some { IfOk result (λ o. IfSome o (λ line.
            BeginsWithLine self.old line.items self.new)) }
        ensures none { IfOk result (λ o. IfNone o
            ((self.new ≡ self.old) × IsInLine self.old)) }
        ensures kept { OnErr result (self.new ≡ self.old) }
        ensures within { length self.old ≤ longest_line }
    {
        let held = &self.bytes[self.start..self.end];
        let Some(end) = line_end(held) else {
            return Ok(None);
        };
        let line = Vec::from_slice(alloc, &held[..end])?;
        self.start += end + 1;
        Ok(Some(line))
    }

    /// Takes out all that it holds. After an `Err` nothing has changed.
    pub(crate) fn take_rest(&mut self, alloc: Global) -> Result<Vec<u8>, AllocError>
        ensures all { IfOk result (λ rest. rest.items ≡ self.old) }
        ensures none { OnOk result (self.new ≡ []) }
        ensures kept { OnErr result (self.new ≡ self.old) }
    {
        let rest = Vec::from_slice(alloc, &self.bytes[self.start..self.end])?;
        self.start = self.end;
        Ok(rest)
    }
}

/// Where the first line feed stands, if one does.
pub(crate) fn line_end(text: &[u8]) -> Option<usize>
    ensures { result ≡ position (λ byte. byte == 10) text.now }
{
    text.iter().position(|byte| *byte == b'\n')
}

/// Moves the bytes between these places to the front.
fn move_to_front(bytes: &mut [u8; LONGEST_LINE], start: usize, end: usize)
    requires order { start ≤ end }
    requires inside { end ≤ longest_line }
    ensures { take (end - start) bytes.new ≡ take (end - start) (drop start bytes.old) }
{
    bytes.copy_within(start..end, 0);
}
