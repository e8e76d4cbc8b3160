//! Lines that a gateway sends.

use crate::sent_answer::SentAnswer;
use acq_core::Event;
use acq_link::SliceSource;
use acq_out::{OutFault, read_events};
use std::alloc::{AllocError, Global};
use std::str;

/// What an answer begins with: its moment is that at which it is taken.
const ANSWER: &[u8] = b"answer,now,";

/// The same as an event line has it, with the first moment that there is.
const AT_A_MOMENT: &[u8] = b"answer,946684800,";

/// What asks for rows.
const FROM: &[u8] = b"from,";

/// A line that a gateway sends (own profile).
#[derive(Clone, Copy)]
pub(crate) enum GatewayLine {
    /// It asks for the rows behind so many.
    From(u64),
    /// An issuer's answer.
    Answer(SentAnswer),
    /// It is out of its form.
    Bad,
}

impl GatewayLine {
    /// What a line says, without its end.
    pub(crate) fn read(alloc: Global, line: &[u8]) -> Result<GatewayLine, AllocError> {
        if let Some(number) = line.strip_prefix(FROM) {
            return Ok(rows_of(number));
        }
        match line.strip_prefix(ANSWER) {
            Some(rest) => answer_of(alloc, rest),
            None => Ok(GatewayLine::Bad),
        }
    }
}

/// How many rows these digits say.
fn rows_of(digits: &[u8]) -> GatewayLine {
    let all_digits = digits.iter().all(|byte| byte.is_ascii_digit());
    match str::from_utf8(digits) {
        Ok(text) if all_digits => match text.parse::<u64>() {
            Ok(number) => GatewayLine::From(number),
            Err(_) => GatewayLine::Bad,
        },
        _ => GatewayLine::Bad,
    }
}

/// The answer whose line goes on so.
fn answer_of(alloc: Global, rest: &[u8]) -> Result<GatewayLine, AllocError> {
    let mut text = Vec::new(alloc);
    text.extend_from_slice(AT_A_MOMENT)?;
    text.extend_from_slice(rest)?;
    match read_events(alloc, &mut SliceSource::new(text.as_slice())) {
        Ok(events) => Ok(only_answer(events.as_slice())),
        Err(OutFault::BadLine(_)) => Ok(GatewayLine::Bad),
        // Nothing is read but memory, so this is memory alone.
        Err(_) => Err(AllocError),
    }
}

/// The answer that is the one event, if it is.
fn only_answer(events: &[Event]) -> GatewayLine {
    match events {
        [Event::Answer(_, merchant, reference, verdict)] => GatewayLine::Answer(SentAnswer {
            merchant: *merchant,
            reference: *reference,
            verdict: *verdict,
        }),
        _ => GatewayLine::Bad,
    }
}
