//! What of a book can be seen in files before they are opened, which writes to them.

use crate::book_files::size_of;
use acq_sql_checking::OpeningFault;
use memchr::memmem::find;
use std::fs::File;
use std::io::{self, ErrorKind, Read, Seek, SeekFrom};

/// The least that a database takes: its first page.
pub(crate) const LEAST_PAGE: u64 = 512;

/// How a database begins, and in a log its first page.
const DATABASE: &[u8] = b"SQLite format 3\0";

/// How the text begins that makes the table of the book. It stands whole in a page of any size.
const TABLE: &[u8] = b"CREATE TABLE book (version INTEGER NOT NULL";

/// How the text of any object begins.
const OBJECT: &[u8] = b"CREATE ";

/// The schema stands in the first pages of a file, of whatever size they are.
const BEGINNING: u64 = 128 << 10;

/// How much of a file is looked through at once.
const PIECE: u64 = 64 << 10;

/// How much of it is looked through twice, so that nothing is missed where two pieces meet.
const TWICE: u64 = 64;

/// Whether the file at a path and its log may be a book: it is a database and has the book's table,
/// or where a stop came while the log was copied into it, its log says so. What can't be read may
/// be one: the open says why.
pub(crate) fn may_hold_book(rt: &HostRuntime, path: &str, log: &str) -> Result<bool, OpeningFault> {
    if size_of(rt, path).is_some_and(|size| size < LEAST_PAGE) {
        return Ok(false);
    }
    match has_signs(rt, path, log) {
        Ok(has) => Ok(has),
        Err(fault) if fault.kind() == ErrorKind::OutOfMemory => Err(OpeningFault::Memory),
        Err(_) => Ok(true),
    }
}

/// Whether the file at a path is what an open leaves of a new database, whole or in part: its first
/// page, whose first byte is written last, with no object.
pub(crate) fn is_begun(rt: &HostRuntime, path: &str) -> bool {
    beginning(rt, path).is_ok_and(|bytes| is_beginning(bytes.as_slice()))
        && stands_in(rt, path, BEGINNING, OBJECT).is_ok_and(|stands| !stands)
}

/// Whether the log at a path may be that of a book: what it makes, if anything, is a book's tables.
pub(crate) fn may_be_log_of_book(rt: &HostRuntime, log: &str) -> bool {
    stands_in_log(rt, log, OBJECT).is_ok_and(|stands| !stands)
        || stands_in_log(rt, log, TABLE).is_ok_and(|stands| stands)
}

fn is_beginning(bytes: &[u8]) -> bool {
    match bytes {
        [0 | b'S', rest @ ..] => DATABASE[1..].starts_with(rest),
        _ => false,
    }
}

fn has_signs(rt: &HostRuntime, path: &str, log: &str) -> io::Result<bool> {
    Ok(
        (beginning(rt, path)?.as_slice() == DATABASE || stands_in_log(rt, log, DATABASE)?)
            && (stands_in(rt, path, BEGINNING, TABLE)? || stands_in_log(rt, log, TABLE)?),
    )
}

/// As many bytes of a file as tell a database.
fn beginning(rt: &HostRuntime, path: &str) -> io::Result<Vec<u8>> {
    let mut bytes = Vec::new(rt.alloc());
    let file = File::open(rt, path)?;
    file.take(DATABASE.len() as u64).read_to_end(&mut bytes)?;
    Ok(bytes)
}

/// Whether a text stands in a log, if there is one.
fn stands_in_log(rt: &HostRuntime, log: &str, text: &[u8]) -> io::Result<bool> {
    match size_of(rt, log) {
        Some(0) => Ok(false),
        Some(size) => stands_in(rt, log, size, text),
        None => Err(ErrorKind::PermissionDenied.into()),
    }
}

/// Whether a text stands in so many first bytes of a file, or a little behind them.
fn stands_in(rt: &HostRuntime, path: &str, most: u64, text: &[u8]) -> io::Result<bool> {
    let mut file = File::open(rt, path)?;
    let mut piece = Vec::new(rt.alloc());
    for turn in 0..=most / PIECE {
        file.seek(SeekFrom::Start(turn.saturating_mul(PIECE)))?;
        piece.clear();
        (&file).take(PIECE + TWICE).read_to_end(&mut piece)?;
        if find(piece.as_slice(), text).is_some() {
            return Ok(true);
        }
    }
    Ok(false)
}
