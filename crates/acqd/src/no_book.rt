//! Why files weren't opened as a book.

ghost use Rattle.std.specs.Prelude.{◌≡◌, Some};

use acq_sql::Refusal;
use acq_sql_checking::OpeningFault;
use sqlite::{Alter, Connection};
use sqlite_disk::Disk;
use sqlite_store::FileStore;

/// Why files weren't opened as a book, with the connection to them, where they were opened.
#[derive(Drop)]
pub struct NoBook<S: Alter> {
    pub fault: OpeningFault,
    pub connection: Option<Connection<S>>,
}

impl<S: Alter> NoBook<S> {
    /// What they hold was refused.
    pub fn refused(refusal: Refusal<S>) -> NoBook<S>
        ensures fault { result.fault ≡ refusal.fault }
        ensures connection { result.connection ≡ Some refusal.connection }
    {
        NoBook {
            fault: refusal.fault,
            connection: Some(refusal.connection),
        }
    }
}

impl<D: Disk + Drop> NoBook<FileStore<D>> {
    /// Why they weren't opened. The connection is let go here: over this machine's files alone its
    /// caller's proof would walk through all that it holds.
    pub fn into_fault(self) -> OpeningFault
        ensures { result ≡ self.fault }
    {
        self.fault
    }
}
