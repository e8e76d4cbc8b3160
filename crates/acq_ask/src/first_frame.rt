//! The frame at the front of an input.

ghost use Rattle.std.specs.Prelude.{◌<◌, length, IfErr, IfOk};
ghost use Rattle.acq_link.specs.FramesAt.{BeginsWithFrame};
ghost use Rattle.acq_ask.specs.Asking.{LacksFrame, LacksFront};

use crate::ask_fault::AskFault;
use acq_link::{Front, frame_at};

/// The message of the frame at the front of an input, and what stands behind the frame.
pub(crate) fn first_frame(bytes: &[u8]) -> Result<(&[u8], &[u8]), AskFault>
    ensures found { IfOk result (λ x. BeginsWithFrame bytes.now x.0.now x.1.now) }
    ensures fault { IfErr result (λ f. 0 < length bytes.now → LacksFrame bytes.now f) }
    ensures front { IfErr result (λ f. LacksFront bytes.now f) }
{
    match frame_at(bytes) {
        Front::Frame { message, rest } => Ok((message, rest)),
        Front::Partial => Err(AskFault::Ended),
        Front::BadLength => Err(AskFault::BadLength),
    }
}
