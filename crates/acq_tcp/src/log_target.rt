//! Where the lines of a log go.

use std::io;

/// Where the lines of a log go. No call waits.
pub trait LogTarget {
    ghost use Rattle.std.specs.Prelude.{◌≤◌, length};

    /// Takes as many bytes of a line as it can at once, and returns how many: none where there is
    /// no room, or the write would wait.
    fn take(&mut self, line: &[u8]) -> usize
        ensures { result ≤ length line.now };

    /// Goes on in the file that stands at the log's path now; where that can't be had, in the one
    /// that it has.
    fn reopen(&mut self) -> io::Result<()>;
}
