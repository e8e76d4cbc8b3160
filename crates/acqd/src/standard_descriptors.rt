//! The three descriptors that a program starts with.

use std::fs::OpenOptions;
use std::io;
use std::os::fd::{AsFd, AsRawFd, IntoRawFd};

/// Takes those of the three standard descriptors that are closed, so that no file and no socket of
/// the program becomes one of them. What takes their place fails each read and write, as a closed
/// one does.
pub(crate) fn take_closed(rt: &HostRuntime) -> io::Result<()> {
    take_if_closed(rt, &rt.stdin(), true)?;
    take_if_closed(rt, &rt.stdout(), false)?;
    take_if_closed(rt, &rt.stderr(), false)
}

/// Takes a descriptor, if it is closed: the lowest one that is, since the system gives that to the
/// next file. /dev/null is opened in the other direction than the stream has.
fn take_if_closed<S: AsFd>(rt: &HostRuntime, stream: &S, is_input: bool) -> io::Result<()> {
    if stream.as_fd().try_clone_to_owned().is_ok() {
        return Ok(());
    }
    let file = OpenOptions::new()
        .read(!is_input)
        .write(is_input)
        .open(rt, "/dev/null")?;
    if file.as_raw_fd() <= 2 {
        let _ = file.into_raw_fd();
    }
    Ok(())
}
