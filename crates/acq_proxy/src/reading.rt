//! Headers of either version.

ghost use Rattle.std.specs.Prelude.{◌≡◌};
ghost use Rattle.acq_proxy.specs.Headers.{IsBounded, IsHeader, is_begun};

use crate::block::{SIGNATURE, block_at};
use crate::header::Header;
use crate::line::{MARK, line_at};

/// The most bytes of a header: it fits the smallest segment that each host takes (2).
pub const LONGEST_HEADER: usize = 536;

/// What stands at the front of these bytes. It takes no memory.
pub fn header_at(bytes: &[u8]) -> Header
    ensures front { IsHeader bytes.now result }
    ensures bound { IsBounded bytes.now result }
{
    if is_begun(bytes, &SIGNATURE) {
        block_at(bytes)
    } else if is_begun(bytes, &MARK) {
        line_at(bytes)
    } else {
        Header::Missing
    }
}

/// Whether bytes begin as this mark does, so far as both go.
fn is_begun(bytes: &[u8], mark: &[u8]) -> bool
    ensures { result ≡ is_begun bytes.now mark.now }
{
    if bytes.len() < mark.len() {
        bytes == &mark[..bytes.len()]
    } else {
        &bytes[..mark.len()] == mark
    }
}
