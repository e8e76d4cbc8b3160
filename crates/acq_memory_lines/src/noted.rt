//! What a gate notes.

/// What happened at a gate.
#[derive(Clone, Copy, Drop)]
pub enum Noted {
    /// It waited: a round begins.
    Waited,
    /// Between two groups the next of its events was taken.
    Asked,
    /// It had the connection of this number end.
    Ended(u64),
    /// The last group left the connection of this number out, though it had a turn ready.
    LeftOut(u64),
    /// A message of the connection of this number was taken, and its group is kept.
    Taken(u64),
    /// So was its issuer's answer, which came later than what asked for it.
    Answered(u64),
}
