//! Messages to a host, and their replies.

ghost use Rattle.std.specs.Prelude.{◌≡◌, ◌++◌, ℕ, List, true, OnOk};
ghost use Rattle.acq_link.specs.Frames.{fits_frame};
ghost use Rattle.acq_link.specs.Moves.{TakesAll};
ghost use Rattle.acq_ask.specs.Turns.{outcome_of};
ghost use Rattle.acq_ask.specs.Asking.{Asks, AsksFrames, EndsTurn, TakesTurn, Talk};

use crate::ask_fault::AskFault;
use crate::exchanging::exchange;
use crate::first_frame::first_frame;
use crate::no_reply::NoReply;
use crate::putting::{put_message, put_outcome};
use crate::watch::Watch;
use acq_link::{Deframer, Sink, Source, read_to_end};
use std::alloc::Global;

/// Sends the frames of an input to a host, the next one once the reply to the one before is whole,
/// and writes what a person is shown of each message and of its reply. Where no reply came, within
/// so many seconds, it says so, and the next one is sent all the same. Returns whether a message
/// got no reply in time. The input is read whole before, and a frame in it that is none is told
/// (`BadLength`, `Ended`) behind the turns of those in front of it. A host that ends, breaks the
/// connection or answers what is no frame is a fault (`NoReply`), which is shown in words, too.
pub fn ask<S: Source, L: Sink, A: Source, W: Watch, K: Sink>(
    alloc: Global,
    input: &mut S,
    lines: &mut L,
    answers: &mut A,
    watch: &W,
    within: u64,
    output: &mut K,
) -> Result<bool, AskFault>
    // What was read of the input, what was said of it, and how it went.
    ensures asks { (bytes : List ℕ) × (talk : Talk)
        × (S.received input.new ≡ S.received input.old ++ bytes)
        × (L.sent lines.new ≡ L.sent lines.old ++ talk.sent)
        × (A.received answers.new ≡ A.received answers.old ++ talk.came)
        × (K.sent output.new ≡ K.sent output.old ++ talk.shown)
        × Asks within bytes talk result }
    // Where all is well, the whole input was read.
    ensures whole { OnOk result
        (TakesAll (S.remaining input.old) (S.received input.old) (S.received input.new)) }
{
    let bytes = read_to_end(alloc, input)?;
    ask_frames(
        alloc,
        bytes.as_slice(),
        lines,
        answers,
        watch,
        within,
        output,
    )
}

/// The same of frames.
fn ask_frames<L: Sink, A: Source, W: Watch, K: Sink>(
    alloc: Global,
    frames: &[u8],
    lines: &mut L,
    answers: &mut A,
    watch: &W,
    within: u64,
    output: &mut K,
) -> Result<bool, AskFault>
    ensures { (talk : Talk)
        × (L.sent lines.new ≡ L.sent lines.old ++ talk.sent)
        × (A.received answers.new ≡ A.received answers.old ++ talk.came)
        × (K.sent output.new ≡ K.sent output.old ++ talk.shown)
        × AsksFrames within frames.now talk result }
{
    let mut held = Deframer::new();
    let mut silent = false;
    let mut rest = frames;
    while !rest.is_empty() {
        let (message, after) = first_frame(rest)?;
        silent |= take_turn(
            alloc, message, lines, answers, &mut held, watch, within, output,
        )?;
        rest = after;
    }
    Ok(silent)
}

/// Shows a message, sends it, waits for its reply, and shows that. Returns whether none came in
/// time.
fn take_turn<L: Sink, A: Source, W: Watch, K: Sink>(
    alloc: Global,
    message: &[u8],
    lines: &mut L,
    answers: &mut A,
    held: &mut Deframer,
    watch: &W,
    within: u64,
    output: &mut K,
) -> Result<bool, AskFault>
    requires { fits_frame message.now ≡ true }
    ensures { (turn : Talk)
        × (L.sent lines.new ≡ L.sent lines.old ++ turn.sent)
        × (A.received answers.new ≡ A.received answers.old ++ turn.came)
        × (K.sent output.new ≡ K.sent output.old ++ turn.shown)
        × TakesTurn within message.now held.old turn held.new result }
{
    put_message(alloc, message, output)?;
    let outcome = exchange(alloc, message, lines, answers, held, watch);
    put_outcome(alloc, &outcome, within, output)?;
    end_of(&outcome)
}

/// Whether there is no reply, or why the next message can't be sent.
fn end_of(outcome: &Result<Vec<u8>, NoReply>) -> Result<bool, AskFault>
    ensures { EndsTurn (outcome_of outcome.now) result }
{
    match outcome {
        Ok(_) => Ok(false),
        Err(cause) if cause.is_silent() => Ok(true),
        Err(cause) => Err(AskFault::NoReply(*cause)),
    }
}
