//! Records of CSV.

use csv::{ByteRecord, ReaderBuilder};
use std::alloc::{AllocError, Global};

/// The first records of a text, of which there may be more.
pub(crate) fn rows_of(
    alloc: Global,
    text: &[u8],
    most: usize,
) -> Result<Vec<ByteRecord>, AllocError> {
    let mut reader = ReaderBuilder::new()
        .has_headers(false)
        .flexible(true)
        .from_reader(alloc, text);
    let mut rows = Vec::new(alloc);
    for _ in 0..most {
        let mut row = ByteRecord::new(alloc);
        match reader.read_byte_record(&mut row) {
            Ok(true) => rows.push(row)?,
            Ok(false) => return Ok(rows),
            // The bytes are in memory and records may be of any length, so this is memory alone.
            Err(_) => return Err(AllocError),
        }
    }
    Ok(rows)
}
