//! In which form messages are written.

use acq_message::Moment;

/// In which form messages are written.
#[derive(Clone, Copy)]
pub enum MadeForm {
    /// Each behind its length in two bytes, high byte first.
    Frames,
    /// Each as a line of hexadecimal digits.
    HexLines,
    /// Each as an event line for `replay`: it came at this moment.
    EventLines(Moment),
}
