//! Records of merchants, terminals and ranges.

ghost use Rattle.std.specs.Prelude.{◌≡◌, IfOk};
ghost use Rattle.acq_directory.specs.Listings.{merchant_line, range_line, terminal_line};

use acq_core::{Merchant, Terminal};
use acq_reports::{prefix_text, record_text};
use card_no::Range;
use itoa::Buffer;
use std::alloc::{AllocError, Global};

/// A merchant's record.
pub(crate) fn merchant_text(alloc: Global, row: &Merchant) -> Result<Vec<u8>, AllocError>
    ensures { IfOk result (λ text. text.items ≡ merchant_line row.now) }
{
    let id = row.id.to_bytes();
    let currency = row.currency.to_bytes();
    let mut first = Buffer::new();
    let fields: [&[u8]; 3] = [
        &id,
        &currency,
        first.format(row.first_reference.number()).as_bytes(),
    ];
    record_text(alloc, &fields)
}

/// A terminal's record.
pub(crate) fn terminal_text(alloc: Global, row: &Terminal) -> Result<Vec<u8>, AllocError>
    ensures { IfOk result (λ text. text.items ≡ terminal_line row.now) }
{
    let merchant = row.merchant.to_bytes();
    let id = row.id.to_bytes();
    let fields: [&[u8]; 2] = [&merchant, &id];
    record_text(alloc, &fields)
}

/// A range's record.
pub(crate) fn range_text(alloc: Global, row: &Range) -> Result<Vec<u8>, AllocError>
    ensures { IfOk result (λ text. text.items ≡ range_line row.now) }
{
    let low = prefix_text(row.low);
    let high = prefix_text(row.high);
    let mut days = Buffer::new();
    let fields: [&[u8]; 4] = [
        &low,
        &high,
        row.issuer.as_bytes(),
        days.format(row.hold_days).as_bytes(),
    ];
    record_text(alloc, &fields)
}
