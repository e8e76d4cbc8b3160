//! Records of the texts that are CSV, and fields of them.

ghost use Rattle.std.specs.Prelude.{◌≡◌, map, IfOk, unwrap_or};
ghost use Rattle.day_totals.specs.Digits.{zero_padded};
ghost use Rattle.acq_message.specs.Elements.{or_empty};
ghost use Rattle.acq_reports.specs.Marks.{csv_line};

use acq_core::{ElementContent, Reference};
use csv::WriterBuilder;
use day_totals::write_digits;
use std::alloc::{AllocError, Global};

/// A record of these fields, as the crate `csv` writes it by default.
pub fn record_text(alloc: Global, fields: &[&[u8]]) -> Result<Vec<u8>, AllocError>
    ensures { IfOk result (λ text. text.items ≡ csv_line (map (λ field. field.now) fields.now)) }
{
    let mut records = WriterBuilder::new().from_writer(Vec::new(alloc));
    match records.write_fields(fields) {
        Ok(()) => {}
        Err(_) => return Err(AllocError),
    }
    match records.into_inner() {
        Ok(text) => Ok(text),
        Err(_) => Err(AllocError),
    }
}

/// The twelve digits of a reference, of 0 where there is none.
pub fn reference_text(reference: Option<Reference>) -> [u8; 12]
    ensures { result ≡ zero_padded 12 (unwrap_or reference 0) }
{
    let mut text = [b'0'; 12];
    match reference {
        Some(reference) => write_digits(reference.number(), &mut text),
        None => write_digits(0, &mut text),
    }
    text
}

/// The bytes of an element, none where it isn't there.
pub fn content_bytes(content: &Option<ElementContent>) -> &[u8]
    ensures { result.now ≡ or_empty content.now }
{
    match content {
        Some(content) => content.as_bytes(),
        None => b"",
    }
}
