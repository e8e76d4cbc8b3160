//! Where bytes go.

ghost use Rattle.std.specs.Prelude.{◌<◌, ℕ, List, length, IfOk};
ghost use Rattle.std.specs.Io.{WritesAtMost};
ghost use Rattle.acq_link.specs.Moves.{Sends, CountsFailure};

use crate::failed::Failed;

/// Where bytes go.
pub trait Sink {
    // The bytes that went out so far, in order.
    ghost sent: { Self → List ℕ };

    // How many writes failed so far.
    ghost failures: { Self → ℕ };

    /// Takes some bytes from the front, and returns how many. A write that takes none of some bytes
    /// fails, and where one fails nothing of it went out.
    fn write(&mut self, bytes: &[u8]) -> Result<usize, Failed>
        ensures bound { WritesAtMost result bytes.now }
        ensures some { IfOk result (λ n. 0 < length bytes.now → 0 < n) }
        ensures sent { Sends (sent self.old) (sent self.new) result bytes.now }
        ensures failures { CountsFailure (failures self.old) (failures self.new) result };
}
