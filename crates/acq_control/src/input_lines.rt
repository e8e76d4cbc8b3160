//! The lines of an input, as they come.

ghost use Rattle.std.specs.Prelude.{◌≡◌, ◌+◌, ◌*◌, ◌++◌, ◌<◌, ℕ, List, [], true, false};
ghost use Rattle.std.specs.Prelude.{IfNone, IfOk, IfSome, None, Ok, OnOk, OnSome, length};
ghost use Rattle.std.specs.Io.KnownBytes.{Consumes, IsAtEnd};
ghost use Rattle.acq_control.specs.Lines.{IsInLine, ended};

use crate::line_buffer::LineBuffer;
use acq_faults::Fault;
use acq_link::{Failed, Source};
use std::alloc::{AllocError, Global};

/// The most bytes that are read at once.
const PIECE: usize = 4096;

/// The lines of an input, as they come. It holds what came and belongs to no line yet.
#[derive(Drop)]
pub(crate) struct InputLines {
    buffer: LineBuffer,
    /// Whether the input ended.
    ended: bool,
    ghost none_left: { ended ≡ true → buffer ≡ [] },
}

impl InputLines {
    ghost use Rattle.acq_control.specs.InputLines.{has_ended, held_of};
    ghost use Rattle.acq_control.specs.Telling.{GivesLine, failed_reads};

    /// Nothing came yet.
    pub(crate) fn new() -> InputLines
        ensures held { held_of result ≡ [] }
        ensures ended { has_ended result ≡ false }
    {
        InputLines {
            buffer: LineBuffer::new(),
            ended: false,
        }
    }

    /// The next line, with its line feed, and reads on until it is whole. The last one may come
    /// without. A line that is too long is a fault (`BadLength`).
    pub(crate) fn take_next<S: Source>(
        &mut self,
        alloc: Global,
        source: &mut S,
    ) -> Result<Option<Vec<u8>>, Fault>
        ensures came { (more : List ℕ) × (S.received source.new ≡ S.received source.old ++ more)
            × GivesLine (held_of self.old ++ more) (held_of self.new) (has_ended self.new) result
            × (OnOk result (Consumes (S.remaining source.old) (S.remaining source.new) more)) }
        ensures over { has_ended self.old ≡ true → result ≡ Ok None }
        ensures end { has_ended self.new ≡ true
            → (has_ended self.old ≡ true → IsAtEnd (S.remaining source.old))
            → OnOk result (IsAtEnd (S.remaining source.new)) }
        ensures reads { S.failures source.new ≡ S.failures source.old + failed_reads result }
        // Lines come to an end, since reads do.
        ensures fewer { IfOk result (λ o. OnSome o (16385 * S.reads_left source.new
            + length (held_of self.new)
            < 16385 * S.reads_left source.old + length (held_of self.old))) }
    {
        if self.ended {
            return Ok(None);
        }
        let mut piece = [0; PIECE];
        loop {
            if let Some(line) = self.buffer.take_line(alloc)? {
                return Ok(Some(with_line_feed(line)?));
            }
            let room = self.buffer.room().min(PIECE);
            if room == 0 {
                return Err(Fault::BadLength);
            }
            let n = match source.read(&mut piece[..room]) {
                Ok(n) => n,
                Err(Failed) => return Err(Fault::Read),
            };
            if n == 0 {
                return Ok(self.take_last(alloc)?);
            }
            self.buffer.feed(&piece[..n]);
        }
    }

    /// The last line, where one is left without its line feed.
    fn take_last(&mut self, alloc: Global) -> Result<Option<Vec<u8>>, AllocError>
        requires { IsInLine (held_of self.old) }
        ensures some { IfOk result (λ o. IfSome o (λ line.
            (line.items ≡ ended (held_of self.old)) × (0 < length (held_of self.old)))) }
        ensures none { IfOk result (λ o. IfNone o (held_of self.old ≡ [])) }
        ensures ended { OnOk result (has_ended self.new ≡ true) }
        ensures held { OnOk result (held_of self.new ≡ []) }
    {
        if self.buffer.is_empty() {
            self.ended = true;
            return Ok(None);
        }
        let line = self.buffer.take_rest(alloc)?;
        self.ended = true;
        Ok(Some(with_line_feed(line)?))
    }
}

/// A line with its line feed.
fn with_line_feed(mut line: Vec<u8>) -> Result<Vec<u8>, AllocError>
    ensures { IfOk result (λ whole. whole.items ≡ ended line.items) }
{
    line.push(b'\n')?;
    Ok(line)
}
