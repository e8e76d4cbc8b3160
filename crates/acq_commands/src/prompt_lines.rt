//! Lines that hold up nobody.

use std::alloc::Global;
use std::cell::Cell;
use std::io;
use std::io::Write;

/// The most bytes of a line; a longer one goes out in pieces.
const LONGEST_LINE: usize = 256;

/// A writer of which no line has to wait.
pub trait Outlet: Write {
    ghost use Rattle.std.specs.Io.{WritesAtMost};

    /// Writes as much of a line as goes out at once, and fails where nothing does.
    fn write_at_once(&mut self, line: &[u8]) -> io::Result<usize>
        ensures { WritesAtMost result line.now };
}

/// Lines to a writer that perhaps nobody reads. Once they have to be prompt, a line that the writer
/// doesn't take at once is dropped, and before the next one that it takes stands how many were.
#[derive(Drop)]
pub struct PromptLines<'a, W> {
    outlet: W,
    is_prompt: &'a Cell<bool>,
    alloc: Global,
    line: Vec<u8>,
    dropped: u64,
}

impl<'a, W: Outlet> PromptLines<'a, W> {
    /// Lines to this writer, which have to be prompt from when that is set.
    pub fn new(alloc: Global, outlet: W, is_prompt: &'a Cell<bool>) -> PromptLines<'a, W> {
        PromptLines {
            outlet,
            is_prompt,
            alloc,
            line: Vec::new(alloc),
            dropped: 0,
        }
    }

    /// Writes the line that is there, or drops it.
    fn end_line(&mut self) {
        if self.dropped > 0 && self.tell_dropped() {
            self.dropped = 0;
        }
        let is_out = self.dropped == 0 && is_written(&mut self.outlet, self.line.as_slice());
        if !is_out {
            self.dropped = self.dropped.saturating_add(1);
        }
        self.line.clear();
    }

    /// Tells how many lines were dropped, and returns whether that went out.
    fn tell_dropped(&mut self) -> bool {
        match format!(in self.alloc; "acqd: dropped {} lines\n", self.dropped) {
            Ok(text) => is_written(&mut self.outlet, text.as_bytes()),
            Err(_) => false,
        }
    }
}

/// Whether a line went out whole, at once.
fn is_written<W: Outlet>(outlet: &mut W, line: &[u8]) -> bool {
    outlet.write_at_once(line).is_ok_and(|n| n == line.len())
}

impl<W: Outlet> Write for PromptLines<'_, W> {
    fn write(&mut self, buf: &[u8]) -> io::Result<usize> {
        if !self.is_prompt.get() {
            return self.outlet.write(buf);
        }
        let end = buf.iter().position(|byte| *byte == b'\n');
        let piece = &buf[..buf.len().min(LONGEST_LINE)];
        let (piece, is_end) = match end {
            Some(place) if place < piece.len() => (&piece[..place + 1], true),
            _ => (piece, false),
        };
        self.line.extend_from_slice(piece)?;
        if is_end || self.line.len() >= LONGEST_LINE {
            self.end_line();
        }
        Ok(piece.len())
    }

    fn flush(&mut self) -> io::Result<()> {
        self.outlet.flush()
    }
}
