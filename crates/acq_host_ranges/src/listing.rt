//! The ranges that a host has.

ghost use Rattle.std.specs.Prelude.{◌≡◌, ◌⊎◌, ◌++◌, IfErr, IfOk, IfSome};
ghost use Rattle.card_no.specs.declared.range.Range as declared_range;
ghost use Rattle.acq_faults.specs.declared.fault.Fault.TheVariants.{BadLength, Memory};
ghost use Rattle.acq_control.specs.Telling.{Talk};
ghost use Rattle.acq_directory.specs.Listings.{header_of};
ghost use Rattle.acq_directory.specs.declared.listing.Listing.TheVariants.{Ranges};
ghost use Rattle.acq_host_ranges.specs.Exchanges.{AsksRanges, ListsRanges, behind};

use crate::asking::answer_to;
use acq_faults::Fault;
use acq_link::{Sink, Source};
use card_no::{RangeFault, RangeList};
use std::alloc::Global;

/// What asks for the ranges.
const QUESTION: &[u8] = b"list,ranges\n";

/// The names of a record's fields, in front of the listing.
const HEADER: &[u8] = b"low,high,issuer,hold_days\n";

/// The ranges that a host has, which is asked for them. Where it answers by a fault's line, that
/// goes to `faults`, and nothing is given. An answer that is no listing of ranges is a fault
/// (`BadLength`).
pub(crate) fn host_ranges<L: Sink, A: Source, F: Sink>(
    alloc: Global,
    lines: &mut L,
    answers: &mut A,
    faults: &mut F,
) -> Result<Option<RangeList>, Fault>
    ensures asked { IfOk result (λ o. IfSome o (λ ranges. (talk : Talk) × AsksRanges talk ranges
        × (record { sent = L.sent lines.new; came = A.received answers.new }
        ≡ behind (record { sent = L.sent lines.old; came = A.received answers.old }) talk))) }
    ensures quiet { IfOk result (λ o. IfSome o (λ _. F.sent faults.new ≡ F.sent faults.old)) }
{
    let Some(text) = answer_to(alloc, QUESTION, lines, answers, faults)? else {
        return Ok(None);
    };
    let ranges = listed_ranges(alloc, text.as_bytes())?;
    Ok(Some(ranges))
}

/// The ranges of a listing.
fn listed_ranges(alloc: Global, text: &[u8]) -> Result<RangeList, Fault>
    ensures listed { IfOk result (λ ranges. ListsRanges text.now ranges) }
    ensures fault { IfErr result (λ fault. (fault ≡ Memory) ⊎ (fault ≡ BadLength)) }
{
    let Some(records) = records_of(text) else {
        return Err(Fault::BadLength);
    };
    match RangeList::from_csv(alloc, records) {
        Ok(ranges) => Ok(ranges),
        Err(RangeFault::Memory) => Err(Fault::Memory),
        Err(_) => Err(Fault::BadLength),
    }
}

/// The records of a listing of ranges, which stand behind its header.
fn records_of(text: &[u8]) -> Option<&[u8]>
    ensures { IfSome result (λ records. text.now ≡ header_of Ranges ++ records.now) }
{
    if text.len() < HEADER.len() {
        return None;
    }
    let (header, records) = text.split_at(HEADER.len());
    if header != HEADER {
        return None;
    }
    Some(records)
}
