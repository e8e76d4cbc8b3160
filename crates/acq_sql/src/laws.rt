//! What a stop leaves of a book over files.

ghost use Rattle.std.specs.Prelude.{IsTrue};
ghost use Rattle.sqlite_wal.specs.Recovery.{Image};
ghost use Rattle.sqlite_trees.specs.Tree.{Trees};
ghost use Rattle.sqlite_trees.specs.View.{IsClean};
ghost use Rattle.sqlite_store.specs.FileStore as files;
ghost use Rattle.sqlite.specs.Files.{over_files};
ghost use Rattle.sqlite.specs.Held.{AreDatabases, state};
ghost use Rattle.acq_core.specs.Tables.{Tables};
ghost use Rattle.acq_sql_opening.specs.Files.{FilesHold};
ghost use Rattle.acq_sql.specs.Opened.{is_honest, leaves_books, may_leave};

use crate::sql_book::SqlBook;
use sqlite::Alter;
use sqlite_disk::Disk;
use sqlite_store::FileStore;

/// Gives up a book over files as a stop does, which closes nothing. Where whatever a stop may leave
/// of it is a book, any files that are left then hold one, at tables that a stop may leave.
pub fn a_stop_leaves_a_book<D: Disk + Drop>(book: SqlBook<FileStore<D>>) -> FileStore<D>
    ensures honest { IsClean (files.view result) → is_honest over_files book }
    ensures left { IsClean (files.view result) → leaves_books over_files book
        → (left : Image) → (files.state result).may_leave left
        → ∥ ((t : Tables) × may_leave over_files book t × FilesHold left t) ∥₁ }
{
    into_store(book)
}

/// The store of a book. It is said of any store: a proof over that of files alone takes longer.
fn into_store<S: Alter + Drop>(book: SqlBook<S>) -> S
    ensures honest { IsClean (S.Store.view result) → is_honest S.Store book }
    ensures leaves { (trees : Trees) → S.Store.recovers result trees
        → (state S.Store book.connection).may_leave trees }
    ensures numbered { IsClean (S.Store.view result) → IsTrue (S.Store.view result).is_numbered }
    ensures sound { IsClean (S.Store.view result) → AreDatabases (S.Store.recovers result) }
{
    book.into_connection().into_store()
}
