//! Why an element could not be set.

ghost use Rattle.std.specs.Prelude.{◌≡◌};

use std::alloc::AllocError;
use std::error::Error;
use std::fmt;

/// Why an element can't have a content, or that memory ran out.
#[derive(Clone, Copy, Debug)]
pub enum SetFault {
    /// Memory ran out.
    Memory,
    /// An element is not in the profile.
    UnknownElement(u8),
    /// An element can't have a content of this length.
    BadLength(u8),
    /// A byte of the content is not of the element's class.
    BadContent(u8),
}

impl SetFault {
    ghost use Rattle.iso_codec.specs.FaultTexts.{number_of_set_fault, element_of_set_fault};

    /// The fault's number, which the same fault of a text has too.
    pub fn number(&self) -> u8
        ensures { result ≡ number_of_set_fault self.now }
    {
        match self {
            SetFault::Memory => 1,
            SetFault::UnknownElement(_) => 4,
            SetFault::BadLength(_) => 6,
            SetFault::BadContent(_) => 7,
        }
    }

    /// The element at fault, or 0 where it is none.
    pub fn element(&self) -> u8
        ensures { result ≡ element_of_set_fault self.now }
    {
        match self {
            SetFault::Memory => 0,
            SetFault::UnknownElement(number)
            | SetFault::BadLength(number)
            | SetFault::BadContent(number) => *number,
        }
    }
}

impl fmt::Display for SetFault {
    ghost use Rattle.std.specs.Prelude.{Some};
    ghost use Rattle.iso_codec.specs.FaultTexts.{text_of_set_fault};

    ghost output = { λ f. Some (text_of_set_fault f) };

    fn fmt<W: fmt::Write>(&self, f: &mut fmt::Formatter<W>) -> fmt::Result {
        match self {
            SetFault::Memory => f.write_str("no memory"),
            SetFault::UnknownElement(number) => {
                write!(f, "element {number} is not in the profile")
            }
            SetFault::BadLength(number) => write!(f, "element {number} can't have this length"),
            SetFault::BadContent(number) => write!(f, "element {number} can't have this content"),
        }
    }
}

impl Error for SetFault {}

impl From<AllocError> for SetFault {
    ghost use Rattle.iso_codec.specs.declared.set_fault.SetFault.TheVariants.{Memory};

    ghost from_gives = { λ _ e. e ≡ Memory };

    fn from(_e: AllocError) -> SetFault {
        SetFault::Memory
    }
}
