//! A call that failed.

use std::error::Error;
use std::fmt;

/// A read or a write that failed. An interrupted one is such, and so is a write that takes none of
/// some bytes.
#[derive(Clone, Copy, Debug, PartialEq, Eq, Drop)]
pub struct Failed;

impl fmt::Display for Failed {
    ghost use Rattle.std.specs.Prelude.{Some};
    ghost use Rattle.acq_link.specs.FaultTexts.{text_of_failed};

    ghost output = { λ _. Some text_of_failed };

    fn fmt<W: fmt::Write>(&self, f: &mut fmt::Formatter<W>) -> fmt::Result {
        f.write_str("a read or a write failed")
    }
}

impl Error for Failed {}
