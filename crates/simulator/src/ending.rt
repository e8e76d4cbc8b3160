//! How what a terminal sends ends.

/// How what a terminal sends ends.
#[derive(Clone, Copy, Drop)]
pub enum Ending {
    /// Between two frames.
    Well,
    /// In the midst of a frame.
    InsideFrame,
    /// A read fails.
    Reset,
    /// A frame comes whose length is bad.
    BadLength,
}

impl Ending {
    /// Its name in a line of what differs.
    pub fn word(&self) -> &'static str {
        match self {
            Ending::Well => "well",
            Ending::InsideFrame => "inside a frame",
            Ending::Reset => "by a reset",
            Ending::BadLength => "by a bad length",
        }
    }
}
