//! Messages in, text for a person or JSON for a program out.

ghost use Rattle.std.specs.Prelude.{◌≡◌, ◌+◌, ◌<◌, ◌++◌, ℕ, List, length, IfErr, IfOk};
ghost use Rattle.acq_link.specs.FramesAt.{BeginsWithFrame};
ghost use Rattle.acq_link.specs.Moves.{TakesAll};
ghost use Rattle.acq_faults.specs.Faults.{failed_reads, failed_writes};
ghost use Rattle.acq_commands.specs.Replay.{AfterReading};
ghost use Rattle.acq_commands.specs.Show.{FrameFault, RunsShow, Shows, ShowsBy, ShowsHex, ShowsOne};
ghost use Rattle.acq_commands.specs.Show.{ShowsText, entry, is_text, text_shown};

use crate::input_form::InputForm;
use crate::shown_form::ShownForm;
use acq_faults::Fault;
use acq_json::{json_of_lines, json_of_message};
use acq_link::hex_frames::frames_of_hex;
use acq_link::{Front, Sink, Source, frame_at, read_to_end, write_out};
use acq_show::{show_lines, show_message};
use std::alloc::{AllocError, Global};

/// Reads the whole input, and then writes what is shown of each message of it: as text for a person,
/// and an empty line behind each, or as an object of JSON on its line. What spells no message is
/// shown by what is wrong with it, and the next message all the same. Lines as `replay` reads and
/// writes them are told by their first byte.
pub fn show<S: Source, K: Sink>(
    alloc: Global,
    how: ShownForm,
    form: InputForm,
    input: &mut S,
    output: &mut K,
) -> Result<(), Fault>
    // What was read, and how it was shown.
    ensures shown { RunsShow how form
        (record { before = S.received input.old; after = S.received input.new })
        (record { before = K.sent output.old; after = K.sent output.new }) result }
    // Unless memory ran out or a read failed, the whole input was read.
    ensures whole { AfterReading result
        (TakesAll (S.remaining input.old) (S.received input.old) (S.received input.new)) }
    // A fault of reading or writing comes only where a read or a write failed.
    ensures reads { S.failures input.new ≡ S.failures input.old + failed_reads result }
    ensures writes { K.failures output.new ≡ K.failures output.old + failed_writes result }
{
    let bytes = read_to_end(alloc, input)?;
    match form {
        InputForm::Plain => show_plain(alloc, how, bytes.as_slice(), output),
        InputForm::HexLines => show_hex(alloc, how, bytes.as_slice(), output),
    }
}

/// Shows the messages of lines in hexadecimal.
fn show_hex<K: Sink>(
    alloc: Global,
    how: ShownForm,
    lines: &[u8],
    output: &mut K,
) -> Result<(), Fault>
    ensures shown { (out : List ℕ) × (K.sent output.new ≡ K.sent output.old ++ out)
        × ShowsHex how lines.now out result }
    ensures reads { failed_reads result ≡ 0 }
    ensures writes { K.failures output.new ≡ K.failures output.old + failed_writes result }
{
    let frames = frames_of_hex(alloc, lines)?;
    show_frames(alloc, how, frames.as_slice(), output)
}

/// Shows the messages of frames, or of lines as `replay` reads and writes them.
fn show_plain<K: Sink>(
    alloc: Global,
    how: ShownForm,
    input: &[u8],
    output: &mut K,
) -> Result<(), Fault>
    ensures shown { (out : List ℕ) × (K.sent output.new ≡ K.sent output.old ++ out)
        × ShowsBy how (is_text input.now) input.now out result }
    ensures reads { failed_reads result ≡ 0 }
    ensures writes { K.failures output.new ≡ K.failures output.old + failed_writes result }
{
    if is_text(input) {
        show_text(alloc, how, input, output)
    } else {
        show_frames(alloc, how, input, output)
    }
}

/// Whether an input begins as lines do, and no frame can.
pub(crate) fn is_text(input: &[u8]) -> bool
    ensures { result ≡ is_text input.now }
{
    match input {
        [byte, ..] => *byte >= b' ',
        [] => false,
    }
}

/// Shows lines as `replay` reads and writes them.
fn show_text<K: Sink>(
    alloc: Global,
    how: ShownForm,
    lines: &[u8],
    output: &mut K,
) -> Result<(), Fault>
    ensures shown { (out : List ℕ) × (K.sent output.new ≡ K.sent output.old ++ out)
        × ShowsText how lines.now out result }
    ensures reads { failed_reads result ≡ 0 }
    ensures writes { K.failures output.new ≡ K.failures output.old + failed_writes result }
{
    let text = text_shown(alloc, how, lines)?;
    match write_out(output, text.as_slice()) {
        Ok(()) => Ok(()),
        Err(bytes) => Err(Fault::Write(bytes)),
    }
}

/// Shows the messages of frames.
fn show_frames<K: Sink>(
    alloc: Global,
    how: ShownForm,
    frames: &[u8],
    output: &mut K,
) -> Result<(), Fault>
    ensures shown { (out : List ℕ) × (K.sent output.new ≡ K.sent output.old ++ out)
        × Shows how frames.now out result }
    ensures reads { failed_reads result ≡ 0 }
    ensures writes { K.failures output.new ≡ K.failures output.old + failed_writes result }
{
    let mut rest = frames;
    while !rest.is_empty() {
        let (message, after) = first_frame(rest)?;
        show_one(alloc, how, message, output)?;
        rest = after;
    }
    Ok(())
}

/// The message of the frame at the front of an input, and what stands behind the frame.
pub(crate) fn first_frame(bytes: &[u8]) -> Result<(&[u8], &[u8]), Fault>
    requires { 0 < length bytes.now }
    ensures found { IfOk result (λ x. BeginsWithFrame bytes.now x.0.now x.1.now) }
    ensures fault { IfErr result (λ f. FrameFault bytes.now f) }
{
    match frame_at(bytes) {
        Front::Frame { message, rest } => Ok((message, rest)),
        Front::Partial => Err(Fault::Ended),
        Front::BadLength => Err(Fault::BadLength),
    }
}

/// Writes what is shown of one message.
fn show_one<K: Sink>(
    alloc: Global,
    how: ShownForm,
    message: &[u8],
    output: &mut K,
) -> Result<(), Fault>
    ensures sent { ShowsOne how message.now (K.sent output.old) (K.sent output.new) result }
    ensures writes { K.failures output.new ≡ K.failures output.old + failed_writes result }
{
    let text = entry_of(alloc, how, message)?;
    match write_out(output, text.as_slice()) {
        Ok(()) => Ok(()),
        Err(bytes) => Err(Fault::Write(bytes)),
    }
}

/// What is shown of one message.
fn entry_of(alloc: Global, how: ShownForm, message: &[u8]) -> Result<Vec<u8>, AllocError>
    ensures { IfOk result (λ text. text.items ≡ entry how message.now) }
{
    match how {
        ShownForm::Text => {
            let mut text = show_message(alloc, message)?;
            text.push(b'\n')?;
            Ok(text)
        }
        ShownForm::Json(cards) => json_of_message(alloc, message, cards),
    }
}

/// What is shown of lines as `replay` reads and writes them.
fn text_shown(alloc: Global, how: ShownForm, lines: &[u8]) -> Result<Vec<u8>, AllocError>
    ensures { IfOk result (λ text. text.items ≡ text_shown how lines.now) }
{
    match how {
        ShownForm::Text => show_lines(alloc, lines),
        ShownForm::Json(cards) => json_of_lines(alloc, lines, cards),
    }
}
