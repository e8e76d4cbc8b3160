//! How a frame begins.

/// How many bytes of a frame are its length.
const LENGTH: usize = 2;

/// How many bytes of a frame are kept: its length, and the first ones of its message.
const KEPT: usize = 6;

/// How a frame begins, as far as it came.
#[derive(Clone, Copy)]
pub(crate) struct FrameHead {
    bytes: [u8; KEPT],
    /// How many of them came.
    count: usize,
}

impl FrameHead {
    /// That of the frame in front of these bytes: a frame of no bytes has its length alone.
    pub(crate) fn of(came: &[u8]) -> FrameHead {
        let whole = match came {
            [high, low, ..] => LENGTH + 256 * usize::from(*high) + usize::from(*low),
            _ => LENGTH,
        };
        let count = came.len().min(whole).min(KEPT);
        let mut bytes = [0; KEPT];
        bytes[..count].copy_from_slice(&came[..count]);
        FrameHead { bytes, count }
    }

    /// Its length, once both bytes of it came.
    pub(crate) fn length(&self) -> Option<u64> {
        match self.bytes() {
            [high, low, ..] => Some(256 * u64::from(*high) + u64::from(*low)),
            _ => None,
        }
    }

    /// What came of it, from its length on.
    pub(crate) fn bytes(&self) -> &[u8] {
        self.bytes.get(..self.count).unwrap_or(&[])
    }

    /// What came of its message.
    pub(crate) fn message(&self) -> &[u8] {
        self.bytes().get(LENGTH..).unwrap_or(&[])
    }
}
