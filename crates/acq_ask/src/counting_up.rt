//! One message after the other, each with the next trace number.

ghost use Rattle.std.specs.Prelude.{◌≡◌, OnOk};
ghost use Rattle.iso_codec.specs.Message.{content_of};
ghost use Rattle.acq_ask.specs.Repeats.{counted_up, next_content, next_number};

use acq_message::digits_value;
use day_totals::write_digits;
use iso_codec::{Message, all_digits};
use std::alloc::{AllocError, Global};

/// The element that has the trace number.
const TRACE: u8 = 11;

/// The digits of a trace number.
const TRACE_DIGITS: usize = 6;

/// The greatest trace number.
const GREATEST_TRACE: u64 = 999_999;

/// Counts a message's trace number up: behind 999999 comes 000001. One without stays as it is.
pub(crate) fn count_up(alloc: Global, message: &mut Message) -> Result<(), AllocError>
    ensures { OnOk result (message.new ≡ counted_up message.old) }
{
    let Some(next) = next_trace(message) else {
        return Ok(());
    };
    match message.set(alloc, TRACE, &next) {
        Ok(()) => Ok(()),
        // Six digits are a trace number, so that memory ran out.
        Err(_) => Err(AllocError),
    }
}

/// The trace number behind a message's own, if it has one.
fn next_trace(message: &Message) -> Option<[u8; TRACE_DIGITS]>
    ensures { result ≡ next_content (content_of message.now.elements 11) }
{
    let trace = message.get(TRACE)?;
    if trace.len() != TRACE_DIGITS || !all_digits(trace) {
        return None;
    }
    let mut next = [0; TRACE_DIGITS];
    write_digits(next_number(digits_value(trace)), &mut next);
    Some(next)
}

/// The number behind a trace number.
fn next_number(trace: u64) -> u64
    ensures { result ≡ next_number trace }
{
    if trace < GREATEST_TRACE { trace + 1 } else { 1 }
}
