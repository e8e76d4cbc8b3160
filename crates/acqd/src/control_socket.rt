//! The socket at which control connections come.

ghost use Rattle.std.specs.Prelude.{IfErr};
ghost use Rattle.acq_faults.specs.Faults.{IsOfListening};

use acq_faults::Fault;
use mio::net::{UnixListener, UnixStream};
use std::fs::{self, DirBuilder, File, Permissions};
use std::io::{self, ErrorKind};
use std::os::fd::AsRawFd;
use std::os::unix::fs::{DirBuilderExt, FileTypeExt, PermissionsExt};

/// The permissions of a control socket: who may open it is who may ask the host for anything.
const OWNERS_ALONE: u32 = 0o600;

/// Those of the folder in which it is made.
const OWNERS_FOLDER: u32 = 0o700;

/// The most bytes of a socket's path (Linux, `sun_path` less its end).
const LONGEST_PATH: usize = 107;

/// Listens at the socket of a path, whose file its owner alone may open. What a program that has
/// ended left there is replaced. Where one that is alive listens there, or something else than a
/// socket stands, a link among it, it is left as it is. So is a path that nobody could connect to,
/// since it is too long.
pub(crate) fn control_socket(rt: &HostRuntime, path: &str) -> Result<UnixListener, Fault>
    ensures { IfErr result IsOfListening }
{
    if path.len() > LONGEST_PATH || is_taken(rt, path) {
        return Err(Fault::Read);
    }
    let folder = format!(in rt.alloc(); "{path}.new");
    let Ok(folder) = folder else {
        return Err(Fault::Memory);
    };
    let made = guarded_socket(rt, path, folder.as_str());
    // A folder that others filled stays.
    let _ = fs::remove_dir(rt, folder.as_str());
    match made {
        Ok(listener) => Ok(listener),
        Err(_) => Err(Fault::Read),
    }
}

/// Removes the socket's file at a path, once nobody listens there.
pub(crate) fn remove_socket(rt: &HostRuntime, path: &str) {
    let is_socket = fs::symlink_metadata(rt, path).is_ok_and(|found| found.file_type().is_socket());
    if is_socket && UnixStream::connect(rt, path).is_err() {
        let _ = fs::remove_file(rt, path);
    }
}

/// Whether a program listens at a path, or something else than a socket stands there.
fn is_taken(rt: &HostRuntime, path: &str) -> bool {
    match fs::symlink_metadata(rt, path) {
        Ok(found) => !found.file_type().is_socket() || UnixStream::connect(rt, path).is_ok(),
        Err(fault) => fault.kind() != ErrorKind::NotFound,
    }
}

/// Makes the socket in a folder that its owner alone may enter, and moves it to its path once
/// nobody else may open it. On the way there it has a path by the folder's descriptor, which is
/// short.
fn guarded_socket(rt: &HostRuntime, path: &str, folder: &str) -> io::Result<UnixListener> {
    match DirBuilder::new().mode(OWNERS_FOLDER).create(rt, folder) {
        Err(fault) if fault.kind() != ErrorKind::AlreadyExists => return Err(fault),
        _ => {}
    }
    let opened = File::open(rt, folder)?;
    let socket = format!(in rt.alloc(); "/proc/self/fd/{}/socket", opened.as_raw_fd())?;
    let _ = fs::remove_file(rt, socket.as_str());
    let listener = UnixListener::bind(rt, socket.as_str())?;
    match placed(rt, socket.as_str(), path) {
        Ok(()) => Ok(listener),
        Err(fault) => {
            let _ = fs::remove_file(rt, socket.as_str());
            Err(fault)
        }
    }
}

/// Has a socket's file its owner's alone, and moves it to its path.
fn placed(rt: &HostRuntime, socket: &str, path: &str) -> io::Result<()> {
    fs::set_permissions(rt, socket, Permissions::from_mode(OWNERS_ALONE))?;
    fs::rename(rt, socket, path)
}
