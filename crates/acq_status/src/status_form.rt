//! Forms of a status.

/// In which form a status is written.
#[derive(Clone, Copy, PartialEq, Eq, Debug)]
pub enum StatusForm {
    /// Lines of a key and a value.
    Lines,
    /// Prometheus's text format.
    Metrics,
}
