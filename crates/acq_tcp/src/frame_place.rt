//! Where in its frames a stream stands.

ghost use Rattle.std.specs.Prelude.{◌≡◌};
ghost use Rattle.acq_tcp.specs.Frames.{left_to_come, place_after};

/// Where in its frames a stream stands, by the bytes that came.
#[derive(Clone, Copy, Debug, PartialEq, Drop)]
pub(crate) enum FramePlace {
    /// Behind a whole frame, or at the beginning.
    Between,
    /// Behind the first byte of a length, which is this one.
    InLength(u8),
    /// So many bytes of the message are still to come.
    InMessage(u64),
}

impl FramePlace {
    /// Where it stands behind the next byte. A message of no bytes is whole at once.
    pub(crate) fn after(self, byte: u8) -> FramePlace
        ensures { result ≡ place_after self byte }
    {
        match self {
            FramePlace::Between => FramePlace::InLength(byte),
            FramePlace::InLength(high) => left_to_come(256 * u64::from(high) + u64::from(byte)),
            FramePlace::InMessage(left) => left_to_come(left.saturating_sub(1)),
        }
    }
}

/// So many bytes of a message are to come.
fn left_to_come(bytes: u64) -> FramePlace
    ensures { result ≡ left_to_come bytes }
{
    if bytes == 0 {
        FramePlace::Between
    } else {
        FramePlace::InMessage(bytes)
    }
}
