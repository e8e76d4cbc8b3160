//! A list that becomes the ranges of a host.

ghost use Rattle.std.specs.Prelude.{◌≡◌, ◌≤◌, IfOk, Ok, true};

use crate::host_ranges_options::HostRangesOptions;
use crate::machine::Machine;
use acq_ask::Watch;
use acq_book::Book;
use acq_faults::Fault;
use acq_host_ranges::{set_host_ranges, write_host_changes};
use acq_link::{Sink, Source};
use card_no::RangeList;
use std::alloc::Global;

/// Makes the list in a file the ranges of a host, and writes the event lines that it took; or
/// writes only those that it would take. Returns the status: 1 where the host refused something.
/// What is wrong is told of the list first, then of the host.
pub(crate) fn set_ranges_of_host<B: Book + Drop, M: Machine<B> + Drop, K: Sink, F: Sink>(
    alloc: Global,
    machine: M,
    asked: &HostRangesOptions,
    output: &mut K,
    faults: &mut F,
) -> Result<u8, Fault>
    ensures quiet { result ≡ Ok 0 → F.sent faults.new ≡ F.sent faults.old }
    ensures status { IfOk result (λ status. status ≤ 1) }
{
    let list = machine.read_ranges(alloc, asked.list.as_str())?;
    let (mut lines, mut answers) = machine.connect_at(asked.path.as_str(), asked.within)?;
    let is_dry = asked.is_dry;
    match set_or_write(
        alloc,
        &mut lines,
        &mut answers,
        &list,
        is_dry,
        output,
        faults,
    ) {
        Ok(true) => Ok(0),
        Ok(false) => Ok(1),
        Err(Fault::Read) if machine.was_silent() => Err(Fault::Silent),
        Err(fault) => Err(fault),
    }
}

/// Makes a list the ranges of a host, or writes the lines of the events by which it would.
fn set_or_write<L: Sink, A: Source, K: Sink, F: Sink>(
    alloc: Global,
    lines: &mut L,
    answers: &mut A,
    list: &RangeList,
    is_dry: bool,
    output: &mut K,
    faults: &mut F,
) -> Result<bool, Fault>
    ensures { result ≡ Ok true → F.sent faults.new ≡ F.sent faults.old }
{
    if is_dry {
        write_host_changes(alloc, lines, answers, list, output, faults)
    } else {
        set_host_ranges(alloc, lines, answers, list, output, faults)
    }
}
