//! How a terminal's end of a connection behaves.

/// How a terminal's end of a connection behaves.
#[derive(Clone, Copy, Drop)]
pub struct Habits {
    /// The most bytes that pass at once.
    pub piece: u64,
    /// Of eight reads, how many find nothing yet.
    pub read_waits: u64,
    /// Of eight writes, how many find no room yet.
    pub write_waits: u64,
    /// How many bytes it takes before a write fails.
    pub room: usize,
    /// Whether its end is that a read fails, and no end of the input.
    pub resets: bool,
}
