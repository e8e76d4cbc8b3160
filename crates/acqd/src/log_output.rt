//! Where a log for operators goes.

ghost use Rattle.std.specs.Prelude.{◌≤◌, IfErr, length};
ghost use Rattle.acq_faults.specs.Faults.{IsOfListening};

use crate::at_once::open_at_once;
use crate::standard_error::StandardError;
use acq_commands::Outlet;
use acq_faults::Fault;
use acq_tcp::LogTarget;
use std::fs::File;
use std::io;
use std::io::Write;

/// The permissions of a log that is made: who reads it reads who talked to the host, and when.
const OWNERS_ALONE: u32 = 0o600;

/// What stands for standard error in place of a path.
const STANDARD_ERROR: &str = "-";

/// Where a log for operators goes: into a file, or to standard error. No write waits.
#[derive(Drop)]
pub enum LogOutput<'a> {
    File(LogFile<'a>),
    StandardError(StandardError),
}

/// A file that takes a log, up to a bound.
#[derive(Drop)]
pub struct LogFile<'a> {
    rt: &'a HostRuntime,
    path: String,
    file: File,
    /// How many bytes it has at most; 0 is as many as come.
    most_bytes: u64,
    /// How many bytes it has, as far as is known.
    bytes: u64,
}

impl<'a> LogOutput<'a> {
    /// Opens the log at a path, behind what it holds, and makes it where it isn't there; or takes
    /// standard error, for which `-` stands.
    pub(crate) fn open(
        rt: &'a HostRuntime,
        path: &str,
        most_bytes: u64,
    ) -> Result<LogOutput<'a>, Fault>
        ensures { IfErr result IsOfListening }
    {
        if path == STANDARD_ERROR {
            return Ok(LogOutput::StandardError(StandardError::new(rt)));
        }
        let Ok(path) = String::from_str(rt.alloc(), path) else {
            return Err(Fault::Memory);
        };
        match opened(rt, path.as_str()) {
            Ok((file, bytes)) => Ok(LogOutput::File(LogFile {
                rt,
                path,
                file,
                most_bytes,
                bytes,
            })),
            Err(_) => Err(Fault::Read),
        }
    }
}

impl LogTarget for LogOutput<'_> {
    fn take(&mut self, line: &[u8]) -> usize {
        match self {
            LogOutput::File(file) => file.take(line),
            LogOutput::StandardError(stream) => written(stream.write_at_once(line), line),
        }
    }

    fn reopen(&mut self) -> io::Result<()> {
        match self {
            LogOutput::File(file) => file.reopen(),
            LogOutput::StandardError(_) => Ok(()),
        }
    }
}

impl LogFile<'_> {
    /// Takes as much of a line as the file does at once, if it has room for the line.
    fn take(&mut self, line: &[u8]) -> usize
        ensures { result ≤ length line.now }
    {
        if !self.has_room(line.len() as u64) {
            return 0;
        }
        let n = written(self.file.write(line), line);
        self.bytes = self.bytes.saturating_add(n as u64);
        n
    }

    /// Whether so many bytes more fit. Where they seem not to, the system is asked how many there
    /// are: another program may have cut the file off.
    fn has_room(&mut self, more: u64) -> bool {
        if self.most_bytes == 0 || self.bytes.saturating_add(more) <= self.most_bytes {
            return true;
        }
        self.bytes = size_of(&self.file);
        self.bytes.saturating_add(more) <= self.most_bytes
    }

    fn reopen(&mut self) -> io::Result<()> {
        let (file, bytes) = opened(self.rt, self.path.as_str())?;
        self.file = file;
        self.bytes = bytes;
        Ok(())
    }
}

/// Opens the file at a path for appending, and makes it where it isn't there; and how many bytes it
/// has.
fn opened(rt: &HostRuntime, path: &str) -> io::Result<(File, u64)> {
    let file = open_at_once(rt, path, OWNERS_ALONE)?;
    let bytes = size_of(&file);
    Ok((file, bytes))
}

/// How many bytes a file has; a pipe or a terminal keeps none.
fn size_of(file: &File) -> u64 {
    match file.metadata() {
        Ok(found) if found.is_file() => found.len(),
        _ => 0,
    }
}

/// How many bytes of a line a write took.
fn written(ended: io::Result<usize>, line: &[u8]) -> usize
    ensures { result ≤ length line.now }
{
    match ended {
        Ok(n) => n.min(line.len()),
        Err(_) => 0,
    }
}
