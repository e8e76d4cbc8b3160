//! Files whose writes don't wait.

use std::fs::{self, File, OpenOptions};
use std::io;
use std::os::fd::AsFd;
use std::os::unix::fs::{FileTypeExt, OpenOptionsExt};
use std::os::unix::net::UnixStream;

/// Opens the file at a path for appending, so that neither the open waits nor a write to it, and
/// makes it, with these permissions, where it isn't there. A pipe is opened for reading, too: else
/// the open would wait for a reader.
pub(crate) fn open_at_once(rt: &HostRuntime, path: &str, mode: u32) -> io::Result<File> {
    let is_pipe = fs::metadata(rt, path).is_ok_and(|found| found.file_type().is_fifo());
    let file = OpenOptions::new()
        .read(is_pipe)
        .append(true)
        .create(true)
        .mode(mode)
        .open(rt, path)?;
    // Whether a write waits is a matter of what a descriptor is open on, and not of the descriptor.
    let same = UnixStream::from(file.as_fd().try_clone_to_owned()?);
    same.set_nonblocking(true)?;
    Ok(file)
}
