//! One call that reads or writes.

/// How one read or write went: it moved these bytes, or it failed.
#[derive(Clone, Copy, Drop)]
pub enum Call<'a> {
    Moved(&'a [u8]),
    Failed,
}
