//! The end of a connection, for the program that serves it.

ghost use Rattle.std.specs.Prelude.{◌≡◌, ◌++◌};
ghost use Rattle.acq_faults.specs.Ends.{going_on, told_line};

use crate::fault::Fault;
use crate::fault_line::write_fault_line;
use acq_front::FrontFault;
use acq_link::Sink;

/// Ends a connection: want of memory and the store's fault end the program too, and any other fault
/// is a line of `faults`.
pub fn end_connection<F: Sink>(ended: Result<(), FrontFault>, faults: &mut F) -> Result<(), Fault>
    ensures which { result ≡ going_on ended }
    ensures told { F.failures faults.new ≡ F.failures faults.old
        → F.sent faults.new ≡ F.sent faults.old ++ told_line ended }
{
    tell(&ended, faults);
    going_on(ended)
}

/// What a connection's end is for the program: want of memory and the store's fault end it, and no
/// other fault does.
fn going_on(ended: Result<(), FrontFault>) -> Result<(), Fault>
    ensures { result ≡ going_on ended }
{
    match ended {
        Err(FrontFault::Memory) => Err(Fault::Memory),
        Err(FrontFault::Store) => Err(Fault::Store),
        Ok(()) | Err(_) => Ok(()),
    }
}

/// Tells a fault that doesn't end the program: its line goes out, unless a write fails.
fn tell<F: Sink>(ended: &Result<(), FrontFault>, faults: &mut F)
    ensures { F.failures faults.new ≡ F.failures faults.old
        → F.sent faults.new ≡ F.sent faults.old ++ told_line ended.now }
{
    match ended {
        Ok(()) | Err(FrontFault::Memory | FrontFault::Store) => {}
        Err(fault) => {
            let _ = write_fault_line(&Fault::from(*fault), faults);
        }
    }
}
