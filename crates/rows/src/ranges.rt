//! Issuers' ranges, and files of them.

use crate::cards::put_prefix;
use crate::failing_reader::FailingReader;
use crate::texts::{number_of, put_bytes, put_number, short_number_of, split_at_first};
use card_no::{IssuerId, Prefix, Range, RangeFault, RangeList};
use std::alloc::Global;

/// The ranges of which `find`, `add` and `remove` are asked.
const TWO_RANGES: &[u8] = b"40000000,49999999,12345,7\n50000000,59999999,67890,1\n";

/// Puts the ranges of a file, or its fault.
pub fn read_ranges(alloc: Global, text: &[u8], answer: &mut String) -> Option<()> {
    put_read(RangeList::read_csv(alloc, text), answer)
}

/// Puts the ranges of a file in memory, or its fault.
pub fn read_in_memory(alloc: Global, text: &[u8], answer: &mut String) -> Option<()> {
    put_read(RangeList::from_csv(alloc, text), answer)
}

/// Puts the ranges of a file of which so many bytes can be read, each by a read of its own, or its
/// fault.
pub fn read_failing(alloc: Global, text: &[u8], answer: &mut String) -> Option<()> {
    let (count, file) = split_at_first(text, b' ')?;
    let fails = usize::try_from(number_of(count)?).ok()?;
    let reader = FailingReader::new(file, fails);
    put_read(RangeList::read_csv(alloc, reader), answer)
}

/// Puts the ranges that were read, or why none were.
fn put_read(read: Result<RangeList, RangeFault>, answer: &mut String) -> Option<()> {
    match read {
        Ok(list) => put_list(list.as_slice(), answer),
        Err(fault) => put_fault(&fault, answer),
    }
}

/// Puts ranges.
fn put_list(ranges: &[Range], answer: &mut String) -> Option<()> {
    if ranges.is_empty() {
        return answer.push_str("none").ok();
    }
    for range in ranges {
        put_range(range, answer)?;
    }
    Some(())
}

/// Puts a range, behind a space where it isn't the first.
fn put_range(range: &Range, answer: &mut String) -> Option<()> {
    if !answer.is_empty() {
        answer.push_str(" ").ok()?;
    }
    put_prefix(range.low, answer)?;
    answer.push_str("-").ok()?;
    put_prefix(range.high, answer)?;
    answer.push_str(",").ok()?;
    put_bytes(range.issuer.as_bytes(), answer)?;
    answer.push_str(",").ok()?;
    put_number(u64::from(range.hold_days), answer)
}

/// Puts a fault's number and its text.
fn put_fault(fault: &RangeFault, answer: &mut String) -> Option<()> {
    write!(answer, "{} {fault}", fault.number()).ok()
}

/// Puts the range of a prefix.
pub fn put_found(alloc: Global, text: &[u8], answer: &mut String) -> Option<()> {
    let prefix = Prefix::from_number(short_number_of(text)?)?;
    match RangeList::from_csv(alloc, TWO_RANGES).ok()?.find(prefix) {
        Some(range) => put_range(range, answer),
        None => answer.push_str("none").ok(),
    }
}

/// Puts what the ranges say of one more.
pub fn put_added(alloc: Global, text: &[u8], answer: &mut String) -> Option<()> {
    let mut list = RangeList::from_csv(alloc, TWO_RANGES).ok()?;
    put_change(list.add(range_in(alloc, text)?), answer)
}

/// Puts what the ranges say of one less.
pub fn put_removed(alloc: Global, text: &[u8], answer: &mut String) -> Option<()> {
    let mut list = RangeList::from_csv(alloc, TWO_RANGES).ok()?;
    let range = range_in(alloc, text)?;
    put_change(list.remove(range.low, range.high), answer)
}

/// Puts what a change came to.
fn put_change(changed: Result<(), RangeFault>, answer: &mut String) -> Option<()> {
    match changed {
        Ok(()) => answer.push_str("done").ok(),
        Err(fault) => put_fault(&fault, answer),
    }
}

/// The range of `LOW,HIGH,ISSUER,DAYS`.
fn range_in(alloc: Global, text: &[u8]) -> Option<Range> {
    let (low, rest) = split_at_first(text, b',')?;
    let (high, rest) = split_at_first(rest, b',')?;
    let (issuer, days) = split_at_first(rest, b',')?;
    let (low, high) = (short_number_of(low)?, short_number_of(high)?);
    let hold_days = u8::try_from(number_of(days)?).ok()?;
    let issuer = IssuerId::from_slice(alloc, issuer).ok()?;
    Some(Range {
        low,
        high,
        issuer,
        hold_days,
    })
}
