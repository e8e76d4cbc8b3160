//! What a host answers to a line.

ghost use Rattle.std.specs.Prelude.{◌≡◌, IfOk, IfSome};
ghost use Rattle.acq_link.specs.MemorySink.{sent_of};
ghost use Rattle.acq_control.specs.Telling.{Talk};
ghost use Rattle.acq_host_ranges.specs.Exchanges.{IsSaid, behind};

use acq_control::tell;
use acq_faults::Fault;
use acq_link::{MemorySink, Sink, SliceSource, Source};
use std::alloc::Global;

/// Tells a host a line, and gives what it answers, of a text its bytes alone. A fault's line goes
/// to `faults`, and nothing is given.
pub(crate) fn answer_to<L: Sink, A: Source, F: Sink>(
    alloc: Global,
    line: &[u8],
    lines: &mut L,
    answers: &mut A,
    faults: &mut F,
) -> Result<Option<MemorySink>, Fault>
    ensures said { IfOk result (λ o. IfSome o (λ answer. (talk : Talk) × IsSaid line.now talk
        × (sent_of answer ≡ talk.shown)
        × (record { sent = L.sent lines.new; came = A.received answers.new }
        ≡ behind (record { sent = L.sent lines.old; came = A.received answers.old }) talk))) }
    ensures quiet { IfOk result (λ o. IfSome o (λ _. F.sent faults.new ≡ F.sent faults.old)) }
{
    let mut input = SliceSource::new(line);
    let mut answer = MemorySink::new(alloc);
    if tell(alloc, &mut input, lines, answers, &mut answer, faults)? {
        return Ok(None);
    }
    Ok(Some(answer))
}
