//! Frames that take no memory to write.

ghost use Rattle.std.specs.Prelude.{◌≡◌, ◌+◌, ◌≤◌, length, true};
ghost use Rattle.acq_link.specs.Frames.{fits_frame, length_bytes};
ghost use Rattle.acq_link.specs.FramesAt.{SendsFrame};
ghost use Rattle.acq_link.specs.Moves.{CountsFailure};

use crate::frames::{HEADER, LONGEST_FRAME};
use crate::sink::Sink;
use crate::transfer::write_out;

/// The most bytes of most frames: a short buffer is sooner ready for them.
const USUAL_FRAME: usize = 256;

/// Writes a message as a frame. It takes no memory, so nothing can fail between an event that was
/// taken and its reply's first byte. At an `Err` so many bytes of the frame were written.
pub fn send_frame<K: Sink>(message: &[u8], sink: &mut K) -> Result<(), u64>
    requires { fits_frame message.now ≡ true }
    ensures sent { SendsFrame message.now (K.sent sink.old) (K.sent sink.new) result }
    ensures failures { CountsFailure (K.failures sink.old) (K.failures sink.new) result }
{
    if message.len() <= USUAL_FRAME - HEADER {
        send_usual(message, sink)
    } else {
        send_any(message, sink)
    }
}

/// Writes a message of a usual length as a frame. It is apart, since a function pays for the size
/// of its buffers, whether or not they are used.
fn send_usual<K: Sink>(message: &[u8], sink: &mut K) -> Result<(), u64>
    requires fits { fits_frame message.now ≡ true }
    requires usual { 2 + length message.now ≤ 256 }
    ensures sent { SendsFrame message.now (K.sent sink.old) (K.sent sink.new) result }
    ensures failures { CountsFailure (K.failures sink.old) (K.failures sink.new) result }
{
    send_in(&mut [0; USUAL_FRAME], message, sink)
}

/// Writes any message as a frame.
fn send_any<K: Sink>(message: &[u8], sink: &mut K) -> Result<(), u64>
    requires { fits_frame message.now ≡ true }
    ensures sent { SendsFrame message.now (K.sent sink.old) (K.sent sink.new) result }
    ensures failures { CountsFailure (K.failures sink.old) (K.failures sink.new) result }
{
    send_in(&mut [0; LONGEST_FRAME], message, sink)
}

/// Writes a message as a frame, out of this buffer.
fn send_in<K: Sink>(frame: &mut [u8], message: &[u8], sink: &mut K) -> Result<(), u64>
    requires fits { fits_frame message.now ≡ true }
    requires room { 2 + length message.now ≤ length frame.old }
    ensures sent { SendsFrame message.now (K.sent sink.old) (K.sent sink.new) result }
    ensures failures { CountsFailure (K.failures sink.old) (K.failures sink.new) result }
{
    let end = HEADER + message.len();
    frame[..HEADER].copy_from_slice(&length_of(message));
    frame[HEADER..end].copy_from_slice(message);
    write_out(sink, &frame[..end])
}

/// A message's length, high byte first.
fn length_of(message: &[u8]) -> [u8; HEADER]
    requires { fits_frame message.now ≡ true }
    ensures { result ≡ length_bytes (length message.now) }
{
    (message.len() as u16).to_be_bytes()
}
