//! The files of a book as they stand before it is opened: the book and, beside it, its log.

use crate::book_signs::may_hold_book;
use acq_sql_checking::OpeningFault;
use std::fs::{self, Permissions};
use std::io::{self, ErrorKind, IsTerminal};
use std::os::unix::fs::PermissionsExt;

/// The permissions of others than the owner.
const OF_OTHERS: u32 = 0o077;

/// The bits of a mode that are permissions.
const PERMISSIONS: u32 = 0o777;

/// Looks whether there may be a book in the file at a path, and makes nothing. Where the file is
/// away, or empty, or holds something else, there is none, and it and the log that may stand beside
/// it are left as they are: the file may come back, and the log is a part of it. Then the log gets
/// the permissions of the file.
pub(crate) fn find_book(rt: &HostRuntime, path: &str) -> Result<(), OpeningFault> {
    let log = log_of(rt, path)?;
    if !may_hold_book(rt, path, log.as_str())? {
        return Err(OpeningFault::NotABook);
    }
    if let Ok(mode) = mode_of(rt, path) {
        guard_log(rt, log.as_str(), mode);
        tell_of_others(rt, path, mode);
    }
    Ok(())
}

/// The size of the file at a path, 0 where there is none, where the system tells it. A folder has
/// none.
pub(crate) fn size_of(rt: &HostRuntime, path: &str) -> Option<u64> {
    match fs::metadata(rt, path) {
        Ok(found) if found.is_dir() => None,
        Ok(found) => Some(found.len()),
        Err(fault) if fault.kind() == ErrorKind::NotFound => Some(0),
        Err(_) => None,
    }
}

/// The path of the log, which lies beside the book where a link leads.
pub(crate) fn log_of(rt: &HostRuntime, path: &str) -> Result<String, OpeningFault> {
    let log = match fs::canonicalize(rt, path) {
        Ok(real) => format!(in rt.alloc(); "{}-wal", real.as_str()),
        Err(_) => format!(in rt.alloc(); "{path}-wal"),
    };
    log.map_err(|_| OpeningFault::Memory)
}

/// Gives the log the permissions of its book, where this process may.
fn guard_log(rt: &HostRuntime, log: &str, mode: u32) {
    if mode_of(rt, log).is_ok_and(|own| own != mode) {
        let _ = fs::set_permissions(rt, log, Permissions::from_mode(mode));
    }
}

/// Tells a person, and no script, that others may read a book.
fn tell_of_others(rt: &HostRuntime, path: &str, mode: u32) {
    if mode & OF_OTHERS != 0 && rt.stderr().is_terminal() {
        let _ = eprintln!(rt;
            "acqd: note: others may use {path} (mode {mode:o}), where card numbers stand"
        );
    }
}

/// The permissions of the file at a path.
fn mode_of(rt: &HostRuntime, path: &str) -> io::Result<u32> {
    Ok(fs::metadata(rt, path)?.permissions().mode() & PERMISSIONS)
}
