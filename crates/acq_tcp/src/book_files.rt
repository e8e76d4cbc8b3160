//! The files of the book that is served.

ghost use Rattle.std.specs.Prelude.{IfErr};
ghost use Rattle.acq_faults.specs.Faults.{IsOfListening};

use acq_faults::Fault;
use std::alloc::{AllocError, Global};
use std::fs::{self, Files};
use std::io::ErrorKind;

/// The paths of a book's file and of its WAL file, which may not be there.
#[derive(Drop)]
pub(crate) struct BookFiles {
    book: String,
    wal: String,
}

/// How many bytes each has, where the system tells it.
#[derive(Clone, Copy)]
pub(crate) struct BookSizes {
    pub(crate) book: Option<u64>,
    pub(crate) wal: Option<u64>,
}

impl BookFiles {
    /// Those of the book at a path. Its WAL file lies beside it, where a link leads.
    pub(crate) fn at<F: Files>(files: &F, alloc: Global, path: &str) -> Result<BookFiles, Fault>
        ensures { IfErr result IsOfListening }
    {
        let paths = match files.canonicalize(alloc, path) {
            Ok(real) => BookFiles::named(alloc, real.as_str()),
            Err(_) => BookFiles::named(alloc, path),
        };
        match paths {
            Ok(paths) => Ok(paths),
            Err(_) => Err(Fault::Memory),
        }
    }

    /// Those of a book whose file has this path.
    fn named(alloc: Global, path: &str) -> Result<BookFiles, AllocError> {
        Ok(BookFiles {
            book: format!(in alloc; "{path}")?,
            wal: format!(in alloc; "{path}-wal")?,
        })
    }

    /// How many bytes they have now: none a WAL file that isn't there.
    pub(crate) fn sizes<F: Files>(&self, files: &F) -> BookSizes {
        BookSizes {
            book: fs::metadata(files, self.book.as_str())
                .ok()
                .map(|found| found.len()),
            wal: match fs::metadata(files, self.wal.as_str()) {
                Ok(found) => Some(found.len()),
                Err(fault) if fault.kind() == ErrorKind::NotFound => Some(0),
                Err(_) => None,
            },
        }
    }
}
