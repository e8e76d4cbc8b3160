//! The host whose page is shown, and where.

/// The host whose page is shown, and where.
#[derive(Drop)]
pub struct PageOptions {
    /// The path of its control socket's file.
    pub control: String,
    /// The port of this machine at which the page is.
    pub port: u16,
}
