//! Why a run of events stopped.

use acq_book::BookFault;
use acq_core::Output;
use std::fmt;

/// Why a run of events stopped before its end. A host whose book is still open holds the tables
/// after the events before the one that wasn't taken, so a run can go on from there.
#[derive(Drop)]
pub struct RunFault {
    /// The place of the event that wasn't taken, from 0 on.
    pub at: usize,
    /// What was said to the events before it.
    pub outputs: Vec<Output>,
    /// Why it wasn't taken.
    pub fault: BookFault,
}

/// Without the outputs, whose replies hold card numbers.
impl fmt::Debug for RunFault {
    ghost use Rattle.std.specs.Prelude.{Some};
    ghost use Rattle.acq_host.specs.Shown.{shown_run_fault};

    ghost debug_output = { λ fault. Some (shown_run_fault fault.at fault.fault) };

    fn fmt<W: fmt::Write>(&self, f: &mut fmt::Formatter<W>) -> fmt::Result {
        match self.fault {
            BookFault::Memory => write!(f, "RunFault at {}: Memory", self.at),
            BookFault::Store => write!(f, "RunFault at {}: Store", self.at),
        }
    }
}
