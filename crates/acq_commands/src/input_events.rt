//! The events that stand in an input.

ghost use Rattle.std.specs.Prelude.{◌≡◌, ◌++◌, ◌∷◌, [], IfOk, Ok, OnOk};
ghost use Rattle.acq_commands.specs.Explain.{AreEventsOf, AreFrames, AreHexLines, ArePlain};
ghost use Rattle.acq_commands.specs.Show.{is_text};
ghost use Rattle.acq_out.specs.EventLines.{events_of_text};

use crate::input_form::InputForm;
use crate::showing::{first_frame, is_text};
use acq_core::{Event, MessageText, Moment};
use acq_faults::Fault;
use acq_link::SliceSource;
use acq_link::hex_frames::frames_of_hex;
use acq_out::read_events;
use std::alloc::Global;

/// The events of an input: its messages, which come at this moment, or those of event lines.
pub(crate) fn events_in(
    alloc: Global,
    form: InputForm,
    moment: Moment,
    input: &[u8],
) -> Result<Vec<Event>, Fault>
    ensures { IfOk result (λ events. AreEventsOf form moment input.now events.items) }
{
    match form {
        InputForm::Plain => events_plain(alloc, moment, input),
        InputForm::HexLines => events_of_hex(alloc, moment, input),
    }
}

/// Those of frames, or of event lines, which are told by their first byte.
fn events_plain(alloc: Global, moment: Moment, input: &[u8]) -> Result<Vec<Event>, Fault>
    ensures { IfOk result (λ events. ArePlain (is_text input.now) moment input.now events.items) }
{
    if is_text(input) {
        events_of_lines(alloc, input)
    } else {
        events_of_frames(alloc, moment, input)
    }
}

/// Those of event lines.
fn events_of_lines(alloc: Global, lines: &[u8]) -> Result<Vec<Event>, Fault>
    ensures { IfOk result (λ events. events_of_text lines.now ≡ Ok events.items) }
{
    let mut source = SliceSource::new(lines);
    match read_events(alloc, &mut source) {
        Ok(events) => Ok(events),
        Err(fault) => Err(Fault::from(fault)),
    }
}

/// The messages of lines in hexadecimal.
fn events_of_hex(alloc: Global, moment: Moment, lines: &[u8]) -> Result<Vec<Event>, Fault>
    ensures { IfOk result (λ events. AreHexLines moment lines.now events.items) }
{
    let frames = frames_of_hex(alloc, lines)?;
    events_of_frames(alloc, moment, frames.as_slice())
}

/// The messages of frames.
fn events_of_frames(alloc: Global, moment: Moment, frames: &[u8]) -> Result<Vec<Event>, Fault>
    ensures { IfOk result (λ events. AreFrames moment frames.now events.items) }
{
    let mut events = Vec::new(alloc);
    let mut rest = frames;
    while !rest.is_empty() {
        let (message, after) = first_frame(rest)?;
        let text = MessageText::from_slice(alloc, message)?;
        add(&mut events, Event::Frame(moment, text))?;
        rest = after;
    }
    Ok(events)
}

/// Puts an event behind others.
fn add(events: &mut Vec<Event>, event: Event) -> Result<(), Fault>
    ensures { OnOk result (events.new.items ≡ events.old.items ++ event ∷ []) }
{
    match events.push(event) {
        Ok(()) => Ok(()),
        Err(_) => Err(Fault::Memory),
    }
}
