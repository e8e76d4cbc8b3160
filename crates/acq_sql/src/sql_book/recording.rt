//! Changes within a group, as a book makes them that holds a request back.

ghost use Rattle.std.specs.Prelude.{◌≡◌, ℕ, Some};
ghost use Rattle.acq_core.specs.Tables.{Tables, after};
ghost use Rattle.acq_book.specs.Promise.{BlamesStore};
ghost use Rattle.acq_sql_changes.specs.Changed.{with_posted};
ghost use Rattle.acq_sql.specs.Holding.{CanRecord, ChangesGroup, Leads, LeadsPosted, with_held};
ghost use Rattle.acq_sql.specs.Opened.{is_honest, is_within, store_faults};

use crate::answers::{counted, told_apart};
use crate::apply::{add_ended, add_request};
use crate::sql_book::SqlBook;
use acq_book::BookFault;
use acq_core::{Change, Posting, Request};
use sqlite::Alter;

impl<S: Alter> SqlBook<S> {
    /// Whether a group is begun.
    pub(crate) fn is_in_group(&self) -> bool
        ensures { result ≡ self.now.in_group }
    {
        self.in_group
    }

    /// Makes a change.
    pub(crate) fn change(&mut self, change: &Change) -> Result<(), BookFault>
        ensures { ChangesGroup S.Store self.old self.new result (Leads change.now)
            (λ t. after t change.now) }
    {
        let in_group = self.in_group;
        let made = crate::apply::apply(&mut self.connection, self.alloc, change, in_group);
        self.memo = self.memo.after(change, made.is_ok());
        counted(&mut self.failures, made)
    }

    /// Records a request within a group, and outside one none. Where it is refused, since no number
    /// is left for its row, that is told as want of memory: the store had no part in it.
    pub(crate) fn record(&mut self, request: &Request) -> Result<(), BookFault>
        ensures changes { ChangesGroup S.Store self.old self.new result
            (CanRecord (Some request.now)) (with_held (Some request.now)) }
        ensures blames { (began : Tables) (faults : ℕ) → is_honest S.Store self.new
            → is_within S.Store self.old began faults → BlamesStore result
            (store_faults S.Store self.old) (store_faults S.Store self.new) }
    {
        if !self.in_group {
            return Err(BookFault::Memory);
        }
        let made = add_request(&mut self.connection, self.alloc, request);
        self.memo = self.memo.with_request(request, made.is_ok());
        let has_ended = self.connection.is_autocommit();
        told_apart(&mut self.failures, made, has_ended)
    }

    /// Records a request within a group as it ends, with the posting that it makes, if any. Outside
    /// a group none is recorded.
    pub(crate) fn record_ended(
        &mut self,
        request: &Request,
        posting: &Option<Posting>,
    ) -> Result<(), BookFault>
        ensures { ChangesGroup S.Store self.old self.new result
            (LeadsPosted request.now posting.now) (with_posted request.now posting.now) }
    {
        if !self.in_group {
            return Err(BookFault::Memory);
        }
        let made = add_ended(&mut self.connection, self.alloc, request, posting);
        self.memo = self.memo.with_request(request, made.is_ok());
        counted(&mut self.failures, made)
    }
}
