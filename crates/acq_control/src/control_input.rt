//! What came over a control connection and belongs to no line yet.

ghost use Rattle.std.specs.Prelude.{◌≡◌, ◌+◌, ◌<◌, ◌≤◌, ℕ, List, length};
ghost use Rattle.std.specs.Prelude.{IfNone, IfOk, IfSome, OnErr};
ghost use Rattle.acq_control.specs.Lines.{IsInLine, longest_line};
ghost use Rattle.acq_control.specs.Held.{Holds, HoldsMore, TakesFront, front_of, is_nothing};
ghost use Rattle.acq_control.specs.Held.{nothing};

use crate::line_buffer::LineBuffer;
use crate::taken_line::TakenLine;
use std::alloc::{AllocError, Global};
use std::marker::Model;

/// What came over a control connection and belongs to no line yet. Of a line that is too long it
/// keeps no more than the end, so that it always has room to read on to where the line ends.
#[derive(Drop)]
pub(crate) struct ControlInput {
    lines: LineBuffer,
    /// Whether the beginning of the line in front was dropped, since the line is too long.
    is_cut: bool,
}

impl Model for ControlInput {
    ghost use Rattle.std.specs.Prelude.{◌<◌, length};
    ghost use Rattle.acq_control.specs.Lines.{IsInLine, longest_line};
    ghost use Rattle.acq_control.specs.Held.{Held};

    ghost Value = { Held };

    ghost view = { λ input. record { kept = input.lines; is_cut = input.is_cut } };

    ghost invariant = { λ input. IsInLine input.lines → length input.lines < longest_line };
}

impl ControlInput {
    /// Nothing came yet. It takes no memory.
    pub(crate) fn new() -> ControlInput
        ensures { result ≡ nothing }
    {
        ControlInput {
            lines: LineBuffer::new(),
            is_cut: false,
        }
    }

    /// Whether nothing came that belongs to no line yet.
    pub(crate) fn is_nothing(&self) -> bool
        ensures { result ≡ is_nothing self.now }
    {
        !self.is_cut && self.lines.is_empty()
    }

    /// What it keeps of the line in front, from its beginning on: nothing where that was dropped.
    pub(crate) fn front(&self) -> &[u8]
        ensures { result.now ≡ front_of self.now }
    {
        if self.is_cut {
            &[]
        } else {
            self.lines.as_slice()
        }
    }

    /// How many bytes it has room for: some, where no line is whole.
    pub(crate) fn room(&self) -> usize
        ensures room { result + length self.now.kept ≡ longest_line }
        ensures some { IsInLine self.now.kept → 0 < result }
    {
        self.lines.room()
    }

    /// Takes in the next piece of what comes.
    pub(crate) fn feed(&mut self, piece: &[u8])
        requires { length self.old.kept + length piece.now ≤ longest_line }
        ensures { HoldsMore self.old self.new piece.now }
    {
        self.lines.feed(piece);
        if self.lines.room() == 0 && self.lines.is_in_line() {
            self.lines.clear();
            self.is_cut = true;
        }
    }

    /// Takes out the line in front, if it is whole. After an `Err` nothing has changed.
    pub(crate) fn take_line(&mut self, alloc: Global) -> Result<Option<TakenLine>, AllocError>
        ensures some { IfOk result (λ o. IfSome o (λ taken. (bytes : List ℕ)
            → Holds self.old bytes → TakesFront self.old self.new taken bytes)) }
        ensures none { IfOk result (λ o. IfNone o
            ((self.new ≡ self.old) × IsInLine self.old.kept)) }
        ensures kept { OnErr result (self.new ≡ self.old) }
    {
        let Some(line) = self.lines.take_line(alloc)? else {
            return Ok(None);
        };
        if self.is_cut {
            self.is_cut = false;
            return Ok(Some(TakenLine::TooLong));
        }
        Ok(Some(TakenLine::Whole(line)))
    }
}
