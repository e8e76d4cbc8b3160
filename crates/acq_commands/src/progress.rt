//! How far a run is.

/// Whom a run tells how far it is.
pub trait Progress {
    /// A run of so many events begins.
    fn begin(&mut self, events: usize);

    /// One event more is done.
    fn done(&mut self);

    /// The run has ended.
    fn end(&mut self);
}

/// Tells that so many events more are done.
pub(crate) fn all_done<P: Progress>(progress: &mut P, events: usize) {
    for _ in 0..events {
        progress.done();
    }
}
