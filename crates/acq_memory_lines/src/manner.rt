//! How a gate in memory behaves.

/// How a gate in memory behaves: each of these happens once in so many times, as it is drawn.
#[derive(Clone, Copy, Drop)]
pub struct Manner {
    /// Behind how many asks the next connection comes.
    pub comes: u64,
    /// Behind how many waits a connection that waits is woken, but for one that waited long.
    pub wakes: u64,
    /// Between how many groups an event is taken.
    pub asks: u64,
    /// How many looks at a connection there are until it is to end.
    pub ends: u64,
}
