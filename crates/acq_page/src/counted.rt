//! What is counted by name.

/// A name, and how many there are.
#[derive(Clone, Copy, Drop)]
pub(crate) struct Counted<'a> {
    pub(crate) name: &'a [u8],
    pub(crate) count: u64,
}
