//! What a stop leaves of a run over files.

ghost use Rattle.std.specs.Prelude.{IfErr, IfOk, IfSome};
ghost use Rattle.sqlite_wal.specs.Files.{image_at};
ghost use Rattle.sqlite_wal.specs.Recovery.{Image};
ghost use Rattle.sqlite_trees.specs.View.{IsClean};
ghost use Rattle.sqlite_store.specs.FileStore as files;
ghost use Rattle.sqlite.specs.Files.{file_state, over_files};
ghost use Rattle.sqlite.specs.State.{HasCleanDisk};
ghost use Rattle.acq_core.specs.Pasts.{HasPast};
ghost use Rattle.acq_core.specs.Tables.{Tables};
ghost use Rattle.acq_sql_opening.specs.Files.{FilesHold};
ghost use Rattle.acq_sql.specs.Opened.{IsOpenAt, is_honest, leaves_books, may_leave};
ghost use Rattle.acqd.specs.Hosts.{IsOpen, tables};
ghost use Rattle.acqd.specs.StoppedRuns.{IsLeftBy, IsNoRefusal};

use crate::no_book::NoBook;
use crate::open_book::open_book;
use acq_core::{Event, Output};
use acq_host::{Host, RunFault};
use acq_recall::RecallingBook;
use acq_sql::{OnceBook, SqlBook, a_stop_leaves_a_book};
use sqlite::Alter;
use sqlite_disk::{Disk, Start};
use sqlite_std_file::FileFrom;
use sqlite_store::FileStore;

/// Takes events over a book in files, and gives it up as a stop does, which closes nothing. Any
/// files that are left then hold a book, at the tables after all these events, or after a fault
/// those before it, perhaps with the one at which it came.
pub fn stopped_run<D: Disk + Drop>(
    host: Host<RecallingBook<OnceBook<FileStore<D>>>>,
    events: &[Event],
) -> (FileStore<D>, Result<Vec<Output>, RunFault>)
    ensures { IsClean (files.view result.0) → IsOpen over_files host → (left : Image)
        → (files.state result.0).may_leave left
        → ∥ ((t : Tables) × IsLeftBy (tables over_files host) events.now result.1 t
        × HasPast t × FilesHold left t) ∥₁ }
{
    let (book, ran) = given_up(host, events);
    (a_stop_leaves_a_book(book), ran)
}

/// Takes events over a book, and gives it up as it then is. It is said of any store: a proof over
/// that of this machine alone takes minutes.
fn given_up<S: Alter + Drop>(
    mut host: Host<RecallingBook<OnceBook<S>>>,
    events: &[Event],
) -> (SqlBook<S>, Result<Vec<Output>, RunFault>)
    ensures books { is_honest S.Store result.0 → IsOpen S.Store host
        → leaves_books S.Store result.0 }
    ensures left { is_honest S.Store result.0 → IsOpen S.Store host
        → (t : Tables) → may_leave S.Store result.0 t
        → IsLeftBy (tables S.Store host) events.now result.1 t × HasPast t }
{
    let ran = host.run(events);
    (host.into_book().into_book().into_book(), ran)
}

/// Takes events over a book in files, gives it up as a stop does, and opens the files at a path,
/// which hold what the stop may have left. The book is then at the tables after all these events,
/// or after a fault those before it, perhaps with the one at which it came; and where the files are
/// refused, only memory or the store was in the way.
pub fn reopened<D: Disk + Drop, E: Start>(
    rt: &HostRuntime,
    host: Host<RecallingBook<OnceBook<FileStore<D>>>>,
    events: &[Event],
    path: &str,
    start: E,
) -> (
    FileStore<D>,
    Result<Vec<Output>, RunFault>,
    Result<SqlBook<FileStore<FileFrom<E>>>, NoBook<FileStore<FileFrom<E>>>>,
)
    ensures opens { IsClean (files.view result.0) → IsOpen over_files host
        → (files.state result.0).may_leave (image_at E.Start) → IfOk result.2 (λ book.
        HasCleanDisk (file_state book.connection) → ∥ ((t : Tables)
        × IsLeftBy (tables over_files host) events.now result.1 t
        × IsOpenAt (file_state book.connection) t) ∥₁) }
    ensures accepts { IsClean (files.view result.0) → IsOpen over_files host
        → (files.state result.0).may_leave (image_at E.Start) → IfErr result.2 (λ none.
        IfSome none.connection (λ connection. HasCleanDisk (file_state connection))
        → IsNoRefusal none.fault) }
{
    let (left, ran) = stopped_run(host, events);
    (left, ran, open_book(rt, path, start))
}
