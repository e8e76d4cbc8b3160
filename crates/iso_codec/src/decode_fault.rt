//! Why a text could not be read.

ghost use Rattle.std.specs.Prelude.{◌≡◌};

use std::alloc::{AllocError, AllocFailed};
use std::error::Error;
use std::fmt;

/// The first fault of a text that spells no message, in the profile's order, or that memory ran
/// out. Where an element is at fault, its number stands with it; 0 stands for the type and the
/// bitmaps.
#[derive(Clone, Copy, Debug, PartialEq, Eq)]
pub enum DecodeFault {
    /// Memory ran out.
    Memory,
    /// The type is not four digits.
    BadType,
    /// A bitmap is not hexadecimal.
    BadBitmap,
    /// An element is not in the profile.
    UnknownElement(u8),
    /// The text ends in an element, or in the type or a bitmap.
    Truncated(u8),
    /// An element's length is not of digits, or above the element's greatest.
    BadLength(u8),
    /// A byte of an element is not of its class.
    BadContent(u8),
    /// Bytes stand after the last element.
    Trailing,
}

impl DecodeFault {
    ghost use Rattle.iso_codec.specs.FaultTexts.{number_of_fault, element_of_fault};

    /// The fault's number, 1 to 8, as printed lines give it.
    pub fn number(&self) -> u8
        ensures { result ≡ number_of_fault self.now }
    {
        match self {
            DecodeFault::Memory => 1,
            DecodeFault::BadType => 2,
            DecodeFault::BadBitmap => 3,
            DecodeFault::UnknownElement(_) => 4,
            DecodeFault::Truncated(_) => 5,
            DecodeFault::BadLength(_) => 6,
            DecodeFault::BadContent(_) => 7,
            DecodeFault::Trailing => 8,
        }
    }

    /// The element at fault, or 0 where it is none.
    pub fn element(&self) -> u8
        ensures { result ≡ element_of_fault self.now }
    {
        match self {
            DecodeFault::UnknownElement(number)
            | DecodeFault::Truncated(number)
            | DecodeFault::BadLength(number)
            | DecodeFault::BadContent(number) => *number,
            DecodeFault::Memory
            | DecodeFault::BadType
            | DecodeFault::BadBitmap
            | DecodeFault::Trailing => 0,
        }
    }
}

impl fmt::Display for DecodeFault {
    ghost use Rattle.std.specs.Prelude.{Some};
    ghost use Rattle.iso_codec.specs.FaultTexts.{text_of_fault};

    ghost output = { λ f. Some (text_of_fault f) };

    fn fmt<W: fmt::Write>(&self, f: &mut fmt::Formatter<W>) -> fmt::Result {
        match self {
            DecodeFault::Memory => f.write_str("no memory"),
            DecodeFault::BadType => f.write_str("the type is not four digits"),
            DecodeFault::BadBitmap => f.write_str("a bitmap is not hexadecimal"),
            DecodeFault::UnknownElement(number) => {
                write!(f, "element {number} is not in the profile")
            }
            DecodeFault::Truncated(number) => write!(f, "the text ends in element {number}"),
            DecodeFault::BadLength(number) => write!(f, "element {number} has a bad length"),
            DecodeFault::BadContent(number) => write!(f, "element {number} has a bad content"),
            DecodeFault::Trailing => f.write_str("bytes stand after the last element"),
        }
    }
}

impl Error for DecodeFault {}

impl From<AllocError> for DecodeFault {
    ghost use Rattle.iso_codec.specs.declared.decode_fault.DecodeFault.TheVariants.{Memory};

    ghost from_gives = { λ _ e. e ≡ Memory };

    fn from(_e: AllocError) -> DecodeFault {
        DecodeFault::Memory
    }
}

impl<T: Drop> From<AllocFailed<T>> for DecodeFault {
    ghost use Rattle.iso_codec.specs.declared.decode_fault.DecodeFault.TheVariants.{Memory};

    ghost from_gives = { λ _ e. e ≡ Memory };

    fn from(_e: AllocFailed<T>) -> DecodeFault {
        DecodeFault::Memory
    }
}
