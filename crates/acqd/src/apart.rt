//! Files that are named twice.

use acq_faults::ListenOptions;
use std::fs;
use std::os::unix::fs::MetadataExt;

/// What stands for standard error in place of a log's path.
const STANDARD_ERROR: &str = "-";

/// Whether one file stands at two of the paths: the book's and that of the log beside it, those of
/// a log for operators, of the control socket, of issuers' answers and of a gateway's socket. Their
/// texts may differ, as where one is a link.
pub(crate) fn names_a_file_twice(rt: &HostRuntime, asked: &ListenOptions) -> bool {
    let beside: Result<String, _> = format!(in rt.alloc(); "{}-wal", asked.path.as_str());
    let files = [
        file_at(rt, Some(asked.path.as_str())),
        file_at(rt, beside.as_ref().ok().map(|path| path.as_str())),
        file_at(rt, log_of(asked)),
        file_at(rt, asked.control.as_deref()),
        file_at(rt, asked.issuers.as_deref()),
        file_at(rt, asked.gateway.as_deref()),
    ];
    for (place, file) in files.iter().enumerate() {
        if file.is_some() && files[place + 1..].contains(file) {
            return true;
        }
    }
    false
}

/// The path of the log for operators, if it is one.
fn log_of(asked: &ListenOptions) -> Option<&str> {
    match asked.log.as_deref() {
        Some(path) if path != STANDARD_ERROR => Some(path),
        _ => None,
    }
}

/// The file at a path, by the numbers that the system gives it, if one is there.
fn file_at(rt: &HostRuntime, path: Option<&str>) -> Option<(u64, u64)> {
    let found = fs::metadata(rt, path?).ok()?;
    Some((found.dev(), found.ino()))
}
