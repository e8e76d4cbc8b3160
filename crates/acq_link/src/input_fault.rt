//! Why an input was not read to its end.

use std::error::Error;
use std::fmt;

/// Why an input could not be read to its end.
#[derive(Clone, Copy, Debug, Drop)]
pub enum InputFault {
    /// A growth was refused.
    Memory,
    /// A read failed.
    Read,
}

impl fmt::Display for InputFault {
    ghost use Rattle.std.specs.Prelude.{Some};
    ghost use Rattle.acq_link.specs.FaultTexts.{text_of_input_fault};

    ghost output = { λ f. Some (text_of_input_fault f) };

    fn fmt<W: fmt::Write>(&self, f: &mut fmt::Formatter<W>) -> fmt::Result {
        f.write_str(match self {
            InputFault::Memory => "out of memory",
            InputFault::Read => "a read failed",
        })
    }
}

impl Error for InputFault {}
