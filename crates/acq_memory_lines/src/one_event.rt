//! One event, between two groups.

ghost use Rattle.acq_front.specs.Stops.{left_of};
ghost use Rattle.acq_memory_lines.specs.Gates.{follow};
ghost use Rattle.acq_rounds.specs.Reaching.{ReachesBy};
ghost use Rattle.acq_rounds.specs.Runs.{OthersGoOn};
ghost use Rattle.acq_rounds.specs.Taking.{TellsFault};
ghost use Rattle.std.specs.Prelude.{OnOk};

use acq_book::{Book, BookFault};
use acq_core::Event;
use acq_host::Host;

/// Has the host take one event, whatever it says to it.
pub fn take_one_event<B: Book + Drop>(host: &mut Host<B>, event: &Event) -> Result<(), BookFault>
    ensures reaches { B.is_honest host.new → B.is_open host.old
        → ReachesBy (B.tables host.old) (left_of B.Book host.new)
        (OthersGoOn follow (B.tables host.old) tt tt) result }
    ensures was_honest { B.is_honest host.new → B.is_honest host.old }
    ensures stays_open { B.is_honest host.new → B.is_open host.old
        → OnOk result (B.is_open host.new) }
    ensures store { TellsFault result (B.failures host.old) (B.failures host.new)
        (B.is_honest host.new → B.is_open host.old → ⊥) }
{
    let output = match host.take(event) {
        Ok(output) => output,
        Err(fault) => return Err(fault),
    };
    drop(output);
    Ok(())
}
