//! Lines of the input to a host.

ghost use Rattle.std.specs.Prelude.{◌≡◌, ◌≤◌, IfOk, Ok};
ghost use Rattle.acq_program.specs.Runs.{ReadsWhole};
ghost use Rattle.acq_program.specs.Telling.{TellsHost};

use crate::machine::Machine;
use crate::tell_options::TellOptions;
use acq_ask::Watch;
use acq_book::Book;
use acq_control::tell;
use acq_faults::Fault;
use acq_link::{Sink, Source};
use std::alloc::Global;

/// Sends the lines of the input to a host, writes what it answers, and returns the status: 1 where
/// an answer was a fault's line.
pub(crate) fn tell_host<B: Book + Drop, M: Machine<B> + Drop, S: Source, K: Sink, F: Sink>(
    alloc: Global,
    machine: M,
    asked: &TellOptions,
    input: &mut S,
    output: &mut K,
    faults: &mut F,
) -> Result<u8, Fault>
    ensures tells { TellsHost
        (record { before = S.received input.old; after = S.received input.new })
        (record { before = K.sent output.old; after = K.sent output.new })
        (record { before = F.sent faults.old; after = F.sent faults.new }) result }
    ensures whole { ReadsWhole
        (S.remaining input.old) (S.received input.old) (S.received input.new) result }
    ensures quiet { result ≡ Ok 0 → F.sent faults.new ≡ F.sent faults.old }
    ensures status { IfOk result (λ status. status ≤ 1) }
{
    let (mut lines, mut answers) = machine.connect_at(asked.path.as_str(), asked.within)?;
    match tell(alloc, input, &mut lines, &mut answers, output, faults) {
        Ok(true) => Ok(1),
        Ok(false) => Ok(0),
        Err(Fault::Read) if machine.was_silent() => Err(Fault::Silent),
        Err(fault) => Err(fault),
    }
}
