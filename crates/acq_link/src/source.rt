//! Where bytes come from.

ghost use Rattle.std.specs.Prelude.{◌≡◌, ◌-◌, ◌<◌, ℕ, List, Option, None, IsErr};
ghost use Rattle.std.specs.Io.{ReadsAtMost};
ghost use Rattle.std.specs.Io.KnownBytes.{ReadConsumes};
ghost use Rattle.acq_link.specs.Moves.{Receives, CountsFailure};

use crate::failed::Failed;

/// Where bytes come from.
pub trait Source {
    // The bytes that reads gave so far, in order.
    ghost received: { Self → List ℕ };

    // The bytes that are still to come, where they are known.
    ghost remaining: { Self → Option (List ℕ) } = { λ _. None };

    // How many reads failed so far.
    ghost failures: { Self → ℕ };

    // How many reads it still serves.
    ghost reads_left: { Self → ℕ };

    /// How many reads it still serves, at most 2^64 - 1. A read past them fails.
    fn reads_left(&self) -> u64
        ensures { result ≡ reads_left self.now };

    /// Reads some bytes to the front of the buffer, and returns how many. None, where the buffer
    /// has room, says that the input ended.
    fn read(&mut self, buffer: &mut [u8]) -> Result<usize, Failed>
        ensures bound { ReadsAtMost result buffer.new }
        ensures received { Receives (received self.old) (received self.new) result buffer.new }
        ensures remaining { ReadConsumes (remaining self.old) (remaining self.new) result
            buffer.new }
        ensures failures { CountsFailure (failures self.old) (failures self.new) result }
        ensures reads_left { reads_left self.new ≡ reads_left self.old - 1 }
        ensures spent { reads_left self.old ≡ 0 → IsErr result };
}
