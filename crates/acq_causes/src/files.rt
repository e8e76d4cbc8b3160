//! What stands in the way of a file.

use os::{RangeLock, try_lock_range};
use std::fs::{self, File, OpenOptions};
use std::io::{self, ErrorKind};
use std::os::fd::AsRawFd;
use std::os::unix::fs::{FileTypeExt, MetadataExt};

const MEMORY: &str = "memory ran out";

/// Why the file at a path can't be opened to be read.
pub(crate) fn why_unread(rt: &HostRuntime, path: &str) -> &'static str {
    match fs::metadata(rt, path) {
        Ok(found) if found.is_dir() => "it is a folder",
        Ok(_) => "it can't be read: see whose it is",
        Err(fault) => why_unreached(&fault),
    }
}

/// Why the file at a path can't be opened to be written, or made.
pub(crate) fn why_unwritten(rt: &HostRuntime, path: &str) -> &'static str {
    match fs::metadata(rt, path) {
        Ok(found) if found.is_dir() => "it is a folder",
        Ok(_) => "it can't be written: see whose it is",
        Err(fault) if fault.kind() == ErrorKind::NotFound => {
            "its folder isn't there, or isn't this user's"
        }
        Err(fault) => why_unreached(&fault),
    }
}

/// Why a control socket can't be made at a path.
pub(crate) fn why_no_socket(rt: &HostRuntime, path: &str) -> &'static str {
    match fs::symlink_metadata(rt, path) {
        Ok(found) if found.file_type().is_socket() => "a host that runs has it",
        Ok(_) => "something else than a socket stands there",
        Err(_) => "its folder isn't this user's, or PATH.new is there, or it has over 107 bytes",
    }
}

/// Why the book in the file at a path can't be used.
pub(crate) fn why_unusable(rt: &HostRuntime, path: &str) -> &'static str {
    match fs::metadata(rt, path) {
        Ok(found) if found.is_dir() => "it is a folder",
        Ok(found) if found.nlink() > 1 => "it has a second name, a hard link: remove one of them",
        Ok(_) => match OpenOptions::new().read(true).write(true).open(rt, path) {
            Ok(file) if is_held(&file) => "another program has it open",
            Ok(_) => why_log_unusable(rt, path),
            Err(fault) => why_unreached(&fault),
        },
        Err(fault) => why_unreached(&fault),
    }
}

/// Why a book can't be used whose file is well, as it seems.
fn why_log_unusable(rt: &HostRuntime, path: &str) -> &'static str {
    let log = format!(in rt.alloc(); "{path}-wal");
    let opened = match &log {
        Ok(log) => OpenOptions::new()
            .read(true)
            .write(true)
            .open(rt, log.as_str()),
        Err(_) => return MEMORY,
    };
    match opened {
        Err(fault) if fault.kind() != ErrorKind::NotFound => "its WAL file can't be opened",
        _ => "it is damaged, or its disk is full or fails",
    }
}

/// Whether a program has a file open as a database, which locks these bytes (SQLite, "File Locking
/// And Concurrency", pending, reserved and shared locks).
fn is_held(file: &File) -> bool {
    try_lock_range(file.as_raw_fd(), RangeLock::Exclusive, 1 << 30, 512) != 0
}

/// Why a path leads to no file.
fn why_unreached(fault: &io::Error) -> &'static str {
    match fault.kind() {
        ErrorKind::NotFound => "there is no such file, or no such folder",
        ErrorKind::PermissionDenied => "this user may not reach, or not write it",
        ErrorKind::ReadOnlyFilesystem => "its file system is read-only",
        _ => "the system can't open it",
    }
}

/// Why an address and a port can't be listened at.
pub(crate) fn why_no_port(kind: ErrorKind) -> &'static str {
    match kind {
        ErrorKind::AddrInUse => "another program listens there",
        ErrorKind::AddrNotAvailable => "this machine has no such address",
        ErrorKind::PermissionDenied =>
            "this user may not listen there: ports below 1024 are root's",
        _ => "the system doesn't let it listen there",
    }
}

/// Why no host is reached at an address and a port.
pub(crate) fn why_no_terminals_host(kind: ErrorKind) -> &'static str {
    match kind {
        ErrorKind::ConnectionRefused => "nobody listens there: see --address and --port",
        ErrorKind::HostUnreachable | ErrorKind::NetworkUnreachable => {
            "no way leads to that address: see --address"
        }
        _ => "the system doesn't connect to it",
    }
}

/// Why no host is reached at a control socket.
pub(crate) fn why_no_host(kind: ErrorKind) -> &'static str {
    match kind {
        ErrorKind::NotFound => "there is no such socket: no host runs with this --control",
        ErrorKind::ConnectionRefused => "nobody listens there: its host has ended",
        ErrorKind::PermissionDenied => "this user may not open it",
        _ => "the system doesn't connect to it",
    }
}
