//! What needs a person.

/// What needs a person.
#[derive(Clone, Copy, Drop)]
pub(crate) enum Alarm<'a> {
    /// So many requests of an earlier day wait.
    EarlierDay(&'a [u8], u64),
    /// One has waited for so many seconds.
    LongWait(u64),
    /// Each place for a terminal is taken.
    NoPlace,
    /// So many lines of the log were lost.
    LostLines(u64),
    /// A gateway asked so many times for rows that aren't there.
    RowsMissing(u64),
    /// So many connections ended for a bad frame.
    RefusedFrames(u64),
}
