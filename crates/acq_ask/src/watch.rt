//! What is known of time.

/// What is known of time: how much has passed, and whether a wait took too much of it.
pub trait Watch {
    /// Whether the last read of what a host sends failed since nothing came in time.
    fn was_silent(&self) -> bool;

    /// How many microseconds have passed since some moment, which stays the same one.
    fn micros(&self) -> u64;
}
