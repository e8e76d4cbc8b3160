//! A list that becomes the ranges of a host.

ghost use Rattle.std.specs.Prelude.{◌≡◌, ◌++◌, ℕ, List, true, Ok};
ghost use Rattle.acq_host_ranges.specs.Exchanges.{SetsRanges, WritesChanges};

use crate::listing::host_ranges;
use crate::taking::{take_each, written};
use acq_faults::Fault;
use acq_link::{Sink, Source};
use acq_range_changes::{change_lines, list_changes};
use card_no::RangeList;
use std::alloc::Global;

/// Makes a list the ranges of a host: asks for its ranges, and has it take the events by which they
/// become the list, the next one once the one before is done. The line of each is written once it
/// is done. What the host says of one that isn't, and a fault's line, go to `faults`; that ends it,
/// and the same call goes on from there. Returns whether all were done.
pub fn set_host_ranges<L: Sink, A: Source, K: Sink, F: Sink>(
    alloc: Global,
    lines: &mut L,
    answers: &mut A,
    list: &RangeList,
    output: &mut K,
    faults: &mut F,
) -> Result<bool, Fault>
    ensures set { result ≡ Ok true → (bytes : List ℕ)
        × (K.sent output.new ≡ K.sent output.old ++ bytes)
        × SetsRanges list.now
        (record { sent = L.sent lines.old; came = A.received answers.old })
        (record { sent = L.sent lines.new; came = A.received answers.new }) bytes }
    ensures quiet { result ≡ Ok true → F.sent faults.new ≡ F.sent faults.old }
{
    let Some(ranges) = host_ranges(alloc, lines, answers, faults)? else {
        return Ok(false);
    };
    let events = list_changes(alloc, &ranges, list)?;
    take_each(alloc, events.as_slice(), lines, answers, output, faults)
}

/// Writes the lines of the events by which a list would become the ranges of a host, which is asked
/// for them alone. Its fault's line goes to `faults`. Returns whether they were written.
pub fn write_host_changes<L: Sink, A: Source, K: Sink, F: Sink>(
    alloc: Global,
    lines: &mut L,
    answers: &mut A,
    list: &RangeList,
    output: &mut K,
    faults: &mut F,
) -> Result<bool, Fault>
    ensures writes { result ≡ Ok true → (bytes : List ℕ)
        × (K.sent output.new ≡ K.sent output.old ++ bytes)
        × WritesChanges list.now
        (record { sent = L.sent lines.old; came = A.received answers.old })
        (record { sent = L.sent lines.new; came = A.received answers.new }) bytes }
    ensures quiet { result ≡ Ok true → F.sent faults.new ≡ F.sent faults.old }
{
    let Some(ranges) = host_ranges(alloc, lines, answers, faults)? else {
        return Ok(false);
    };
    let events = list_changes(alloc, &ranges, list)?;
    let text = change_lines(alloc, events.as_slice())?;
    written(output, text.as_slice())?;
    Ok(true)
}
