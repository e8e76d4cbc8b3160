//! One message to a host, many times.

ghost use Rattle.std.specs.Prelude.{◌≡◌, ◌⊎◌, ◌++◌, ℕ, List, [], map, true, IfErr, IfOk, OnOk};
ghost use Rattle.iso_codec.specs.Reading.{spelling};
ghost use Rattle.acq_link.specs.Frames.{fits_frame};
ghost use Rattle.acq_link.specs.Moves.{TakesAll};
ghost use Rattle.acq_ask.specs.Asking.{Talk};
ghost use Rattle.acq_ask.specs.Codes.{code_of, counts_text};
ghost use Rattle.acq_ask.specs.Repeats.{Repeats, SendsOnce, SendsRepeats, SpellsNone, SpellsOne};

use crate::ask_fault::AskFault;
use crate::counting::counts_text;
use crate::counting_up::count_up;
use crate::exchanging::exchange;
use crate::first_frame::first_frame;
use crate::load::Load;
use crate::putting::put_text;
use crate::times::put_times;
use crate::watch::Watch;
use acq_link::{Deframer, LONGEST_MESSAGE, Sink, Source, read_to_end};
use iso_codec::{DecodeFault, Message, decode, encode};
use std::alloc::{AllocError, Global};

/// Sends the message of the one frame of an input so many times to a host, each time behind the
/// reply to the one before, with its trace number counted up; and then writes how many replies
/// came, how many have each response code, and how long they took. What stops it is told behind
/// that.
pub fn repeat<S: Source, L: Sink, A: Source, W: Watch, K: Sink>(
    alloc: Global,
    count: u64,
    input: &mut S,
    lines: &mut L,
    answers: &mut A,
    watch: &W,
    output: &mut K,
) -> Result<(), AskFault>
    // What was read of the input, what was said of it, and how it went.
    ensures repeats { (bytes : List ℕ) × (talk : Talk)
        × (S.received input.new ≡ S.received input.old ++ bytes)
        × (L.sent lines.new ≡ L.sent lines.old ++ talk.sent)
        × (A.received answers.new ≡ A.received answers.old ++ talk.came)
        × (K.sent output.new ≡ K.sent output.old ++ talk.shown)
        × Repeats count bytes talk result }
    // Where all is well, the whole input was read.
    ensures whole { OnOk result
        (TakesAll (S.remaining input.old) (S.received input.old) (S.received input.new)) }
{
    let bytes = read_to_end(alloc, input)?;
    let message = only_message(alloc, bytes.as_slice())?;
    drop(bytes);
    let mut load = Load::new(alloc);
    let ended = send_all(alloc, count, message, lines, answers, watch, &mut load);
    let text = summary(alloc, count, &mut load)?;
    drop(load);
    put_text(text.as_slice(), output)?;
    ended
}

/// The message of the one frame of an input.
fn only_message(alloc: Global, input: &[u8]) -> Result<Message, AskFault>
    ensures one { IfOk result (λ message. SpellsOne input.now message) }
    ensures none { IfErr result (λ cause. SpellsNone input.now cause) }
{
    let (text, later) = first_frame(input)?;
    if !later.is_empty() {
        return Err(AskFault::BadLength);
    }
    match decode(alloc, text) {
        Ok(message) => Ok(message),
        Err(DecodeFault::Memory) => Err(AskFault::Memory),
        Err(fault) => Err(AskFault::Undecodable(fault)),
    }
}

/// Sends a message so many times, and counts what comes of it.
fn send_all<L: Sink, A: Source, W: Watch>(
    alloc: Global,
    count: u64,
    mut message: Message,
    lines: &mut L,
    answers: &mut A,
    watch: &W,
    load: &mut Load,
) -> Result<(), AskFault>
    ensures { (sent came : List ℕ) × (replies : List (List ℕ))
        × (L.sent lines.new ≡ L.sent lines.old ++ sent)
        × (A.received answers.new ≡ A.received answers.old ++ came)
        × (load.new.codes.items ≡ load.old.codes.items ++ map code_of replies)
        × SendsRepeats message count sent came replies result }
{
    let mut held = Deframer::new();
    let began = watch.micros();
    for _ in 0..count {
        send_once(alloc, &mut message, lines, answers, &mut held, watch, load)?;
        load.micros = watch.micros().saturating_sub(began);
    }
    Ok(())
}

/// Sends a message once, counts it up, and counts its reply.
fn send_once<L: Sink, A: Source, W: Watch>(
    alloc: Global,
    message: &mut Message,
    lines: &mut L,
    answers: &mut A,
    held: &mut Deframer,
    watch: &W,
    load: &mut Load,
) -> Result<(), AskFault>
    ensures { (sent came : List ℕ)
        × (L.sent lines.new ≡ L.sent lines.old ++ sent)
        × (A.received answers.new ≡ A.received answers.old ++ came)
        × SendsOnce message.old message.new held.old held.new sent came load.old.codes.items
        load.new.codes.items result }
{
    let text = spelled(alloc, message)?;
    let began = watch.micros();
    let reply = match exchange(alloc, text.as_slice(), lines, answers, held, watch) {
        Ok(reply) => reply,
        Err(cause) => return Err(AskFault::NoReply(cause)),
    };
    let micros = watch.micros().saturating_sub(began);
    count_up(alloc, message)?;
    load.add(alloc, reply.as_slice(), micros)?;
    Ok(())
}

/// A message's spelling, which fits a frame.
fn spelled(alloc: Global, message: &Message) -> Result<Vec<u8>, AskFault>
    ensures { IfOk result (λ text. (text.items ≡ spelling message.now)
        × (fits_frame text.items ≡ true)) }
{
    let mut text = Vec::new(alloc);
    encode(alloc, message, &mut text)?;
    if text.is_empty() || text.len() > LONGEST_MESSAGE {
        return Err(AskFault::BadLength);
    }
    Ok(text)
}

/// What is shown of all of it.
fn summary(alloc: Global, count: u64, load: &mut Load) -> Result<Vec<u8>, AllocError>
    ensures { IfOk result (λ text. (times : List ℕ)
        × (text.items ≡ counts_text count load.old.codes.items ++ times)) }
{
    let mut text = counts_text(alloc, count, load.codes.as_slice())?;
    put_times(&mut text, load)?;
    Ok(text)
}
