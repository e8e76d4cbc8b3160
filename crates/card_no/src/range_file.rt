//! Lists of ranges in files.

ghost use Rattle.std.specs.Prelude.{◌≡◌, ◌⊎◌, ℕ, List, [], IfOk, IfErr, IfSome, MatchResult, OnOk};
ghost use Rattle.csv.specs.Reading.{Ready, default_config, error_kind, reader_config, reader_state};
ghost use Rattle.csv.specs.Reading.{reader_trim, source_of, strip_bom};
ghost use Rattle.csv.specs.declared.parser.State.TheVariants as st;
ghost use Rattle.csv.specs.declared.reader.Trim.TheVariants as trim;
ghost use Rattle.csv.specs.Records.{fields_of};
ghost use Rattle.card_no.specs.RangeFiles.{range_of_fields, with_record, ranges_of_text};
ghost use Rattle.card_no.specs.RangeFiles.{ReadsText, ReadsRanges};
ghost use Rattle.card_no.specs.ReadStops.{Stops, stop_of};
ghost use Rattle.card_no.specs.declared.range_fault.RangeFault.TheVariants.{Memory};
ghost use Rattle.card_no.specs.declared.read_stop.ReadStop.TheVariants.{Fault, Unread};

use crate::range::Range;
use crate::range_fault::RangeFault;
use crate::range_list::RangeList;
use crate::read_stop::ReadStop;
use csv::{ByteRecord, ErrorKind, Reader, ReaderBuilder};
use std::alloc::{AllocError, Global};
use std::io::Read;

impl RangeList {
    /// Reads a range list file: CSV with no header line, a record `low,high,issuer,hold_days` for
    /// each range, where `low` and `high` have as many digits as a prefix, the issuer has 1 to 11,
    /// and the hold days have one or two. `BadLine` counts records from 1; it also names the record
    /// that could not be had because a read failed. [`from_csv`](RangeList::from_csv) reads one in
    /// memory, where no read fails.
    pub fn read_csv<R: Read + Drop>(alloc: Global, reader: R) -> Result<RangeList, RangeFault>
        ensures { IfSome (R.remaining reader) (λ text. ReadsRanges text result) }
    {
        match ranges_of(alloc, reader) {
            Ok(ranges) => Ok(ranges),
            Err(ReadStop::Fault(fault)) => Err(fault),
            Err(ReadStop::Unread(number)) => Err(RangeFault::BadLine(number)),
        }
    }

    /// Reads a range list file that is in memory. `BadLine` names the first record that is refused,
    /// and nothing else.
    pub fn from_csv(alloc: Global, text: &[u8]) -> Result<RangeList, RangeFault>
        ensures { ReadsText text.now result }
    {
        match ranges_of(alloc, text) {
            Ok(ranges) => Ok(ranges),
            Err(ReadStop::Fault(fault)) => Err(fault),
            // The bytes are in memory and records may be of any length, so this is memory alone.
            Err(ReadStop::Unread(_)) => Err(RangeFault::Memory),
        }
    }
}

/// The ranges that a reader's records spell.
fn ranges_of<R: Read + Drop>(alloc: Global, reader: R) -> Result<RangeList, ReadStop>
    ensures { IfSome (R.remaining reader) (λ text. MatchResult result
        (λ ranges. ranges_of_text text ≡ Ok ranges)
        (λ stop. Stops text stop)) }
{
    let mut ranges = RangeList::new(alloc);
    let mut records = ReaderBuilder::new()
        .has_headers(false)
        .flexible(true)
        .from_reader(alloc, reader);
    let mut fields = ByteRecord::new(alloc);
    let read = read_records(alloc, &mut records, &mut fields, &mut ranges);
    drop(fields);
    drop(records);
    match read {
        Ok(()) => Ok(ranges),
        Err(stop) => Err(stop),
    }
}

/// Adds the ranges of all records to an empty list.
fn read_records<R: Read>(
    alloc: Global,
    records: &mut Reader<R>,
    fields: &mut ByteRecord,
    ranges: &mut RangeList,
) -> Result<(), ReadStop>
    requires trim { reader_trim records.old ≡ trim.None }
    requires ready { Ready records.old }
    requires config { reader_config records.old ≡ default_config }
    requires start { reader_state records.old ≡ st.StartRecord }
    requires empty { ranges.old ≡ [] }
    ensures { (text : List ℕ) → source_of R.remaining records.old ≡ Some (strip_bom text)
        → MatchResult result
        (λ _. ranges_of_text text ≡ Ok ranges.new)
        (λ stop. Stops text stop) }
{
    for number in 1..u64::MAX {
        match records.read_byte_record(fields) {
            Ok(true) => add_record(alloc, ranges, fields, number)?,
            Ok(false) => return Ok(()),
            Err(error) => return Err(unread(error, number)),
        }
    }
    // No list has room for so many ranges.
    Err(ReadStop::Fault(RangeFault::Memory))
}

/// Why the record with this number could not be had.
fn unread(error: csv::Error, number: u64) -> ReadStop
    ensures which { result ≡ stop_of (error_kind error) number }
    ensures either { (result ≡ Fault Memory) ⊎ (result ≡ Unread number) }
{
    match error.into_kind() {
        ErrorKind::OutOfMemory => ReadStop::Fault(RangeFault::Memory),
        _ => ReadStop::Unread(number),
    }
}

/// Adds the range of a record of the file, counted from 1.
fn add_record(
    alloc: Global,
    ranges: &mut RangeList,
    fields: &ByteRecord,
    number: u64,
) -> Result<(), RangeFault>
    ensures ok { OnOk result
        (with_record number ranges.old (fields_of fields.now) ≡ Ok ranges.new) }
    ensures fault { IfErr result (λ fault. (fault ≡ Memory)
        ⊎ (with_record number ranges.old (fields_of fields.now) ≡ Err fault)) }
{
    let Some(range) = range_of(alloc, fields)? else {
        return Err(RangeFault::BadLine(number));
    };
    ranges.add(range)
}

/// The range that a record spells, where it has four fields in their form.
fn range_of(alloc: Global, fields: &ByteRecord) -> Result<Option<Range>, AllocError>
    ensures { IfOk result (λ range. range ≡ range_of_fields (fields_of fields.now)) }
{
    let Some(low) = fields.get(0) else {
        return Ok(None);
    };
    let Some(high) = fields.get(1) else {
        return Ok(None);
    };
    let Some(issuer) = fields.get(2) else {
        return Ok(None);
    };
    let Some(days) = fields.get(3) else {
        return Ok(None);
    };
    if fields.get(4).is_some() {
        return Ok(None);
    }
    Range::from_texts(alloc, low, high, issuer, days)
}
