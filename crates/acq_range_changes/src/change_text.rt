//! Lines of changes of ranges.

ghost use Rattle.std.specs.Prelude.{◌≡◌, IfOk, flat_map};
ghost use Rattle.acq_range_changes.specs.Lines.{add_line, change_line, drop_line};

use acq_core::Event;
use acq_reports::{prefix_text, record_text};
use card_no::Range;
use itoa::Buffer;
use std::alloc::{AllocError, Global};

/// The lines of such events (own profile; `specs/Lines.antt`): event lines, one for each that adds
/// or drops a range. Other events have none.
pub fn change_lines(alloc: Global, events: &[Event]) -> Result<Vec<u8>, AllocError>
    ensures { IfOk result (λ text. text.items ≡ flat_map change_line events.now) }
{
    let mut text = Vec::new(alloc);
    for event in events.iter() {
        let line = change_line(alloc, event)?;
        text.extend_from_slice(line.as_slice())?;
    }
    Ok(text)
}

/// The line of an event that adds or drops a range; of another one none, and no bytes.
pub fn change_line(alloc: Global, event: &Event) -> Result<Vec<u8>, AllocError>
    ensures { IfOk result (λ text. text.items ≡ change_line event.now) }
{
    match event {
        Event::AddRange(range) => add_text(alloc, range),
        Event::DropRange(low, high) => drop_text(alloc, *low, *high),
        _ => Ok(Vec::new(alloc)),
    }
}

/// `addrange,LOW,HIGH,ISSUER,HOLD,`
fn add_text(alloc: Global, range: &Range) -> Result<Vec<u8>, AllocError>
    ensures { IfOk result (λ text. text.items ≡ add_line range.now) }
{
    let low = prefix_text(range.low);
    let high = prefix_text(range.high);
    let mut days = Buffer::new();
    let name: &[u8] = b"addrange";
    let none: &[u8] = b"";
    let fields: [&[u8]; 6] = [
        name,
        &low,
        &high,
        range.issuer.as_bytes(),
        days.format(range.hold_days).as_bytes(),
        none,
    ];
    record_text(alloc, &fields)
}

/// `droprange,LOW,HIGH,,,`
fn drop_text(alloc: Global, low: u32, high: u32) -> Result<Vec<u8>, AllocError>
    ensures { IfOk result (λ text. text.items ≡ drop_line low high) }
{
    let low = prefix_text(low);
    let high = prefix_text(high);
    let name: &[u8] = b"droprange";
    let none: &[u8] = b"";
    let fields: [&[u8]; 6] = [name, &low, &high, none, none, none];
    record_text(alloc, &fields)
}
