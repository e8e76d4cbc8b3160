//! What a line asks that has requests found.

ghost use Rattle.std.specs.Prelude.{◌≡◌, ◌==◌};
ghost use Rattle.std.specs.List.{position};
ghost use Rattle.acq_control.specs.FindLines.{AsksByCard, AsksByDay, AsksFind, SpellsInquiry};
ghost use Rattle.acq_control.specs.FindLines.{by_reference, by_trace, ends_of_text};
ghost use Rattle.acq_control.specs.FindLines.{trace_of_text};

use crate::reading::comma_in;
use crate::sought::Sought;
use acq_inquiry::Inquiry;
use acq_message::Trace;
use acq_out::{merchant_of, reference_of, terminal_of};
use day_totals::Day;
use iso_codec::all_digits;
use std::str;

/// What is to be found of the merchant before the first comma, as is said behind it.
pub(crate) fn sought_of(text: &[u8]) -> Option<Sought>
    ensures { AsksFind text.now (position (λ byte. byte == 44) text.now) result }
{
    let comma = comma_in(text)?;
    let merchant = merchant_of(&text[..comma])?;
    let inquiry = inquiry_of(&text[comma + 1..])?;
    Some(Sought { merchant, inquiry })
}

/// An inquiry, by how its text begins.
fn inquiry_of(text: &[u8]) -> Option<Inquiry>
    ensures { SpellsInquiry text.now result }
{
    if text.starts_with(b"reference,") {
        Some(Inquiry::Reference(reference_of(&text[10..])?))
    } else if text.starts_with(b"terminal,") {
        trace_in(&text[9..])
    } else if text.starts_with(b"card,") {
        card_in(&text[5..])
    } else {
        None
    }
}

/// The requests of the terminal before the first comma with the trace number behind it.
fn trace_in(text: &[u8]) -> Option<Inquiry>
    ensures { result ≡ by_trace text.now (position (λ byte. byte == 44) text.now) }
{
    let comma = comma_in(text)?;
    let terminal = terminal_of(&text[..comma])?;
    let trace = trace_of(&text[comma + 1..])?;
    Some(Inquiry::Trace(terminal, trace))
}

fn trace_of(text: &[u8]) -> Option<Trace>
    ensures { result ≡ trace_of_text text.now }
{
    Trace::read(text)
}

/// The requests of the day behind the first comma, of cards that end in the digits before it.
fn card_in(text: &[u8]) -> Option<Inquiry>
    ensures { AsksByCard text.now (position (λ byte. byte == 44) text.now) result }
{
    let comma = comma_in(text)?;
    let digits = ends_of(&text[..comma])?;
    day_in(digits, &text[comma + 1..])
}

/// The last four digits of a card.
fn ends_of(text: &[u8]) -> Option<[u8; 4]>
    ensures { result ≡ ends_of_text text.now }
{
    match <[u8; 4]>::try_from(text) {
        Ok(digits) if all_digits(&digits) => Some(digits),
        _ => None,
    }
}

/// The requests of the day whose date this is, of cards that end so.
fn day_in(digits: [u8; 4], date: &[u8]) -> Option<Inquiry>
    ensures { AsksByDay digits date.now result }
{
    let Ok(date) = str::from_utf8(date) else {
        return None;
    };
    Some(Inquiry::CardEnds(digits, Day::read(date)?))
}
