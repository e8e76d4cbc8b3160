//! Frames on a link (own profile): a message of 1 to 4,096 bytes behind its length in two bytes,
//! high byte first.

ghost use Rattle.std.specs.Prelude.{◌≡◌, ◌++◌, OnOk, true};
ghost use Rattle.acq_link.specs.Frames.{frame, fits_frame};
ghost use Rattle.acq_link.specs.Fronts.{IsFront};

use crate::front::Front;
use byteorder::{BigEndian, ByteOrder};
use std::alloc::{AllocError, Global};

/// The bytes of a length.
pub(crate) const HEADER: usize = 2;

/// The most bytes of a message.
pub const LONGEST_MESSAGE: usize = 4096;

/// The most bytes of a frame.
pub const LONGEST_FRAME: usize = HEADER + LONGEST_MESSAGE;

/// What stands at the front of these bytes. It takes no memory.
pub fn frame_at(bytes: &[u8]) -> Front<'_>
    ensures { IsFront bytes.now result }
{
    if bytes.len() < HEADER {
        return Front::Partial;
    }
    let length = BigEndian::read_u16(bytes) as usize;
    if length == 0 || length > LONGEST_MESSAGE {
        return Front::BadLength;
    }
    let (_, rest) = bytes.split_at(HEADER);
    if rest.len() < length {
        return Front::Partial;
    }
    let (message, rest) = rest.split_at(length);
    Front::Frame { message, rest }
}

/// Puts the frame of a message behind the others.
pub(crate) fn add_frame(frames: &mut Vec<u8>, message: &[u8]) -> Result<(), AllocError>
    requires { fits_frame message.now ≡ true }
    ensures { OnOk result (frames.new.items ≡ frames.old.items ++ frame message.now) }
{
    let length = message.len() as u16;
    frames.extend_from_slice(&length.to_be_bytes())?;
    frames.extend_from_slice(message)
}
