//! The file of a new book, which comes to its place whole.

use crate::book_files::log_of;
use crate::book_signs::{LEAST_PAGE, is_begun, may_be_log_of_book};
use acq_sql_checking::OpeningFault;
use acq_sql_opening::has_no_tables;
use sqlite::Connection;
use std::fs::{self, File, OpenOptions, Permissions};
use std::io::{self, ErrorKind};
use std::os::unix::fs::{MetadataExt, OpenOptionsExt, PermissionsExt, chown};
use std::path::PathBuf;

/// The permissions of a new book: card numbers stand in it, so it is its owner's alone.
const OWNERS_ALONE: u32 = 0o600;

/// The bits of a mode that are permissions.
const PERMISSIONS: u32 = 0o777;

/// The least size of a log in which a change stands: its header, and a frame of the least page.
const LEAST_LOG: u64 = 32 + 24 + 512;

/// The file of a new book. It is made beside its place, and put there once it is whole, so that a
/// stop leaves nothing at its place that is a part of a book.
#[derive(Drop)]
pub(crate) struct NewBookFile {
    /// Its place, where the link that a path may be leads.
    place: PathBuf,
    /// The log that may have been left at its place.
    log: String,
    /// Where it is made.
    beside: String,
    /// The log that it has there.
    beside_log: String,
}

impl NewBookFile {
    /// An empty file for a new book, where none is in the way: the file at its path is away or
    /// empty, and no log with a change stands beside it, or both are a database without tables. It
    /// has the permissions of the file that is there, and else it is its owner's alone. What a stop
    /// left of a book that was to become this one is removed.
    pub(crate) fn make(rt: &HostRuntime, path: &str) -> Result<NewBookFile, OpeningFault> {
        if !is_free(rt, path, log_of(rt, path)?.as_str())? {
            return Err(OpeningFault::NotABook);
        }
        let file = NewBookFile::at(rt, path)?;
        file.remove(rt)?;
        file.make_beside(rt).map_err(fault_of)?;
        Ok(file)
    }

    /// The paths of a new book. Its place is taken by an empty file, which tells where a link
    /// leads.
    fn at(rt: &HostRuntime, path: &str) -> Result<NewBookFile, OpeningFault> {
        let place = taken_place(rt, path).map_err(fault_of)?;
        let log = log_of(rt, path)?;
        let beside = format!(in rt.alloc(); "{}-new", place.as_str());
        let beside = beside.map_err(|_| OpeningFault::Memory)?;
        let beside_log = format!(in rt.alloc(); "{beside}-wal");
        let beside_log = beside_log.map_err(|_| OpeningFault::Memory)?;
        Ok(NewBookFile {
            place,
            log,
            beside,
            beside_log,
        })
    }

    /// Where the book is made.
    pub(crate) fn beside(&self) -> &str {
        self.beside.as_str()
    }

    fn make_beside(&self, rt: &HostRuntime) -> io::Result<()> {
        let found = fs::metadata(rt, self.place.as_str())?;
        let made = OpenOptions::new()
            .write(true)
            .create_new(true)
            .mode(OWNERS_ALONE)
            .open(rt, self.beside())?;
        // Who may not give it away keeps it.
        let _ = chown(rt, self.beside(), Some(found.uid()), Some(found.gid()));
        made.set_permissions(Permissions::from_mode(found.permissions().mode() & PERMISSIONS))
    }

    /// Puts the book, which was closed, to its place, if that is still free.
    pub(crate) fn put(&self, rt: &HostRuntime) -> Result<(), OpeningFault> {
        if !is_free(rt, self.place.as_str(), self.log.as_str())? {
            return Err(OpeningFault::NotABook);
        }
        self.rename(rt).map_err(fault_of)
    }

    fn rename(&self, rt: &HostRuntime) -> io::Result<()> {
        remove(rt, self.beside_log.as_str())?;
        remove(rt, self.log.as_str())?;
        fs::rename(rt, self.beside(), self.place.as_str())?;
        match self.place.parent() {
            Some(folder) => File::open(rt, folder.as_str())?.sync_all(),
            None => Ok(()),
        }
    }

    /// Removes what stands beside the place.
    pub(crate) fn remove(&self, rt: &HostRuntime) -> Result<(), OpeningFault> {
        for path in [self.beside(), self.beside_log.as_str()] {
            remove(rt, path).map_err(fault_of)?;
        }
        Ok(())
    }
}

/// The size of the file at a path, 0 where there is none; a folder is in the way.
fn room_taken(rt: &HostRuntime, path: &str) -> Result<u64, OpeningFault> {
    match fs::metadata(rt, path) {
        Ok(found) if found.is_dir() => Err(OpeningFault::Store),
        Ok(found) => Ok(found.len()),
        Err(fault) if fault.kind() == ErrorKind::NotFound => Ok(0),
        Err(fault) => Err(fault_of(fault)),
    }
}

/// What a call of the system failed for, as an open of a book tells it.
fn fault_of(fault: io::Error) -> OpeningFault {
    match fault.kind() {
        ErrorKind::OutOfMemory => OpeningFault::Memory,
        _ => OpeningFault::Store,
    }
}

/// Whether a new book may come to a path: the file is away or empty, and its log has no change, or
/// they are what a stop left while a book was made there.
fn is_free(rt: &HostRuntime, path: &str, log: &str) -> Result<bool, OpeningFault> {
    let (size, logged) = (room_taken(rt, path)?, room_taken(rt, log)?);
    if size == 0 {
        return Ok(logged < LEAST_LOG);
    }
    if !is_begun(rt, path) {
        return Ok(false);
    }
    if logged < LEAST_LOG {
        // A few bytes alone may be anything.
        return Ok(size >= LEAST_PAGE || logged > 0);
    }
    if size >= LEAST_PAGE && may_be_log_of_book(rt, log) {
        return has_no_tables(Connection::open(rt, path)?);
    }
    Ok(false)
}

/// The place where a path leads, where an empty file is made if there is none.
fn taken_place(rt: &HostRuntime, path: &str) -> io::Result<PathBuf> {
    OpenOptions::new()
        .write(true)
        .create(true)
        .mode(OWNERS_ALONE)
        .open(rt, path)?;
    fs::canonicalize(rt, path)
}

/// Removes the file at a path, if there is one.
fn remove(rt: &HostRuntime, path: &str) -> io::Result<()> {
    match fs::remove_file(rt, path) {
        Err(fault) if fault.kind() != ErrorKind::NotFound => Err(fault),
        _ => Ok(()),
    }
}
