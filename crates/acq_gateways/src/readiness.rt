//! Whether a stream may have something to do.

/// Whether something may be there to read on a stream, and room to write.
#[derive(Clone, Copy, Drop)]
pub struct Readiness {
    pub may_read: bool,
    pub may_write: bool,
}

impl Readiness {
    /// There may be both.
    pub fn new() -> Readiness {
        Readiness {
            may_read: true,
            may_write: true,
        }
    }
}
