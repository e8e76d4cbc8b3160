//! Frames out of a stream that comes in pieces.

ghost use Rattle.std.specs.Prelude.{◌≡◌, ◌==◌, ◌+◌, ◌-◌, ◌<◌, ◌≤◌, ◌++◌, [], length, true};
ghost use Rattle.std.specs.Prelude.{drop, false, take};
ghost use Rattle.std.specs.Prelude.{IfOk, IfSome, IfNone, IsErrOf, OnErr};
ghost use Rattle.acq_link.specs.Frames.{has_bad_length};
ghost use Rattle.acq_link.specs.FramesAt.{BeginsWithFrame, MayBecomeFrame};
ghost use Rattle.acq_link.specs.FirstMessage.{begins_with_message, behind_message, first_message};
ghost use Rattle.acq_link.specs.Fronts.{IsFront};
ghost use Rattle.acq_link.specs.Deframing.{longest_frame};

use crate::deframe_fault::DeframeFault;
use crate::frames::{LONGEST_FRAME, frame_at};
use crate::front::Front;
use std::alloc::Global;
use std::marker::Model;

/// Takes messages out of a stream that comes in pieces. It neither reads nor writes: it is fed, and
/// holds what belongs to no message yet, at most one frame's bytes. Contracts see the list of them.
#[derive(Drop)]
pub struct Deframer {
    bytes: [u8; LONGEST_FRAME],
    /// Where what it holds begins: a message that is taken leaves the others where they stand.
    start: usize,
    end: usize,
}

impl Model for Deframer {
    ghost use Rattle.std.specs.Prelude.{◌≤◌, ◌-◌, ℕ, List, drop, take};
    ghost use Rattle.acq_link.specs.Deframing.{longest_frame};

    ghost Value = { List ℕ };

    ghost view = { λ d. take (d.end - d.start) (drop d.start d.bytes) };

    ghost invariant = { λ d. (d.start ≤ d.end) × (d.end ≤ longest_frame) };
}

impl Deframer {
    /// No byte yet. It takes no memory.
    pub fn new() -> Deframer
        ensures { result ≡ [] }
    {
        Deframer {
            bytes: [0; LONGEST_FRAME],
            start: 0,
            end: 0,
        }
    }

    /// What it holds.
    pub fn as_slice(&self) -> &[u8]
        ensures { result.now ≡ self.now }
    {
        &self.bytes[self.start..self.end]
    }

    /// Whether it holds nothing.
    pub fn is_empty(&self) -> bool
        ensures { result ≡ (length self.now == 0) }
    {
        self.start == self.end
    }

    /// How many bytes it has room for: some, where what it holds may become a frame.
    pub fn room(&self) -> usize
        ensures room { result + length self.now ≡ longest_frame }
        ensures some { MayBecomeFrame self.now → 0 < result }
    {
        LONGEST_FRAME - (self.end - self.start)
    }

    /// Takes in the next piece of the stream.
    pub fn feed(&mut self, piece: &[u8])
        requires { length self.old + length piece.now ≤ longest_frame }
        ensures { self.new ≡ self.old ++ piece.now }
    {
        let held = self.end - self.start;
        let end = held + piece.len();
        move_to_front(&mut self.bytes, self.start, self.end);
        self.bytes[held..end].copy_from_slice(piece);
        self.start = 0;
        self.end = end;
    }

    /// What stands in front of what it holds.
    pub fn front(&self) -> Front<'_>
        ensures { IsFront self.now result }
    {
        frame_at(self.as_slice())
    }

    /// Whether a whole frame stands in front.
    pub fn has_message(&self) -> bool
        ensures { result ≡ begins_with_message self.now }
    {
        match self.front() {
            Front::Frame { .. } => true,
            _ => false,
        }
    }

    /// The message in front, copied, if its frame is whole. A bad length is told as soon as its two
    /// bytes are there.
    pub fn message(&self, alloc: Global) -> Result<Option<Vec<u8>>, DeframeFault>
        ensures some { IfOk result (λ o. IfSome o (λ message.
            (begins_with_message self.now ≡ true)
            × (message.items ≡ first_message self.now))) }
        ensures none { IfOk result (λ o. IfNone o (MayBecomeFrame self.now)) }
        ensures bad { IsErrOf result DeframeFault.BadLength → has_bad_length self.now ≡ true }
    {
        match self.front() {
            Front::BadLength => Err(DeframeFault::BadLength),
            Front::Partial => Ok(None),
            Front::Frame { message, .. } => {
                let message = Vec::from_slice(alloc, message)?;
                Ok(Some(message))
            }
        }
    }

    /// Lets the message in front go, if its frame is whole.
    pub fn discard(&mut self)
        ensures gone { begins_with_message self.old ≡ true → self.new ≡ behind_message self.old }
        ensures kept { begins_with_message self.old ≡ false → self.new ≡ self.old }
    {
        let Front::Frame { rest, .. } = frame_at(&self.bytes[self.start..self.end]) else {
            return;
        };
        self.start = self.end - rest.len();
    }

    /// Takes out the message in front, if its frame is whole. A bad length is told as soon as its
    /// two bytes are there. After an `Err` nothing has changed.
    pub fn take_message(&mut self, alloc: Global) -> Result<Option<Vec<u8>>, DeframeFault>
        ensures some { IfOk result (λ o. IfSome o (λ message.
            BeginsWithFrame self.old message.items self.new)) }
        ensures none { IfOk result (λ o. IfNone o
            ((self.new ≡ self.old) × MayBecomeFrame self.old)) }
        ensures bad { IsErrOf result DeframeFault.BadLength → has_bad_length self.old ≡ true }
        ensures kept { OnErr result (self.new ≡ self.old) }
    {
        let message = self.message(alloc);
        if let Ok(Some(_)) = &message {
            self.discard();
        }
        message
    }
}

/// Moves the bytes between these places to the front.
fn move_to_front(bytes: &mut [u8; LONGEST_FRAME], start: usize, end: usize)
    requires order { start ≤ end }
    requires inside { end ≤ longest_frame }
    ensures { take (end - start) bytes.new ≡ take (end - start) (drop start bytes.old) }
{
    bytes.copy_within(start..end, 0);
}
