//! Events that a host takes.

ghost use Rattle.std.specs.Prelude.{◌≡◌, ◌++◌, ℕ, take, true, false, IfOk, Ok};
ghost use Rattle.acq_control.specs.Telling.{Talk};
ghost use Rattle.acq_range_changes.specs.Lines.{change_line};
ghost use Rattle.acq_host_ranges.specs.Exchanges.{AreDone, IsDone, behind, lines_of};

use crate::asking::answer_to;
use acq_core::Event;
use acq_faults::Fault;
use acq_link::{Sink, Source, write_out};
use acq_range_changes::change_line;
use std::alloc::Global;

/// What a host answers to an event that it takes.
const DONE: &[u8] = b"done\n";

/// Has a host take events, the next one once the one before is done, and writes the line of each
/// that was done. At the first that isn't that ends: what the host says of it goes to `faults`.
/// Returns whether all were done.
pub(crate) fn take_each<L: Sink, A: Source, K: Sink, F: Sink>(
    alloc: Global,
    events: &[Event],
    lines: &mut L,
    answers: &mut A,
    output: &mut K,
    faults: &mut F,
) -> Result<bool, Fault>
    ensures all { result ≡ Ok true → AreDone events.now
        (record { sent = L.sent lines.old; came = A.received answers.old })
        (record { sent = L.sent lines.new; came = A.received answers.new }) }
    ensures written { result ≡ Ok true
        → K.sent output.new ≡ K.sent output.old ++ lines_of events.now }
    ensures quiet { result ≡ Ok true → F.sent faults.new ≡ F.sent faults.old }
    // Else so many first ones' lines were written, unless a fault stops it.
    ensures first { IfOk result (λ _. (n : ℕ)
        × (K.sent output.new ≡ K.sent output.old ++ lines_of (take n events.now))) }
{
    for event in events.iter() {
        if !take_one(alloc, event, lines, answers, output, faults)? {
            return Ok(false);
        }
    }
    Ok(true)
}

/// Has a host take an event, and writes its line if it was done. Else what the host says of it goes
/// to `faults`.
fn take_one<L: Sink, A: Source, K: Sink, F: Sink>(
    alloc: Global,
    event: &Event,
    lines: &mut L,
    answers: &mut A,
    output: &mut K,
    faults: &mut F,
) -> Result<bool, Fault>
    ensures done { result ≡ Ok true → (talk : Talk) × IsDone event.now talk
        × (record { sent = L.sent lines.new; came = A.received answers.new }
        ≡ behind (record { sent = L.sent lines.old; came = A.received answers.old }) talk) }
    ensures written { result ≡ Ok true
        → K.sent output.new ≡ K.sent output.old ++ change_line event.now }
    ensures quiet { result ≡ Ok true → F.sent faults.new ≡ F.sent faults.old }
    ensures refused { result ≡ Ok false → K.sent output.new ≡ K.sent output.old }
{
    let line = change_line(alloc, event)?;
    let Some(answer) = answer_to(alloc, line.as_slice(), lines, answers, faults)? else {
        return Ok(false);
    };
    if answer.as_bytes() != DONE {
        written(faults, answer.as_bytes())?;
        return Ok(false);
    }
    written(output, line.as_slice())?;
    Ok(true)
}

/// Writes bytes.
pub(crate) fn written<K: Sink>(sink: &mut K, bytes: &[u8]) -> Result<(), Fault>
    ensures { IfOk result (λ _. K.sent sink.new ≡ K.sent sink.old ++ bytes.now) }
{
    match write_out(sink, bytes) {
        Ok(()) => Ok(()),
        Err(count) => Err(Fault::Write(count)),
    }
}
