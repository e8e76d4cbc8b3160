//! Ends of connections that don't wait.

ghost use Rattle.std.specs.Prelude.{◌≡◌, ◌<◌, ◌≤◌, ◌++◌, ◌||◌, ℕ, Bool, List, length, take};
ghost use Rattle.std.specs.Prelude.{IfOk, IfSome};
ghost use Rattle.acq_link.specs.Moves.{CountsFailure};
ghost use Rattle.acq_front.specs.Lines.{moved, says_end};

use acq_link::Failed;

/// An end of a connection that doesn't wait.
pub trait Line {
    // The bytes that came so far, in order.
    ghost received: { Self → List ℕ };

    // The bytes that went out so far, in order.
    ghost sent: { Self → List ℕ };

    // Whether a read said that the input ended.
    ghost has_ended: { Self → Bool };

    // How many reads failed so far.
    ghost read_failures: { Self → ℕ };

    // How many writes failed so far.
    ghost write_failures: { Self → ℕ };

    /// Reads some bytes to the front of the buffer, and returns how many, or `None` where none came
    /// yet. 0, where the buffer has room, says that the input ended.
    fn read(&mut self, buffer: &mut [u8]) -> Result<Option<usize>, Failed>
        ensures bound { moved result ≤ length buffer.new }
        ensures received { received self.new ≡ received self.old ++ take (moved result) buffer.new }
        ensures sent { sent self.new ≡ sent self.old }
        ensures ends { 0 < length buffer.new
            → has_ended self.new ≡ (has_ended self.old || says_end result) }
        ensures failures { CountsFailure (read_failures self.old) (read_failures self.new) result }
        ensures writes { write_failures self.new ≡ write_failures self.old };

    /// Takes some bytes from the front, and returns how many, or `None` where none can go yet. A
    /// write that takes none of some bytes fails.
    fn write(&mut self, bytes: &[u8]) -> Result<Option<usize>, Failed>
        ensures bound { moved result ≤ length bytes.now }
        ensures some { IfOk result (λ n. IfSome n (λ n. 0 < length bytes.now → 0 < n)) }
        ensures received { received self.new ≡ received self.old }
        ensures sent { sent self.new ≡ sent self.old ++ take (moved result) bytes.now }
        ensures ends { has_ended self.new ≡ has_ended self.old }
        ensures reads { read_failures self.new ≡ read_failures self.old }
        ensures failures { CountsFailure (write_failures self.old) (write_failures self.new)
            result };
}
