//! A book in a database.

ghost use Rattle.std.specs.Prelude.{◌≡◌, ◌≢◌, ◌↔◌, Err, IfErr, IfOk, IsTrue, Ok, false, true};
ghost use Rattle.std.specs.Prelude.{None, option_map};
ghost use Rattle.sqlite.specs.Held.{state};
ghost use Rattle.sqlite.specs.State.{HasCleanDisk, Survives, store_error};
ghost use Rattle.row_lemmas.specs.Ready.{LeavesOnly};
ghost use Rattle.acq_core.specs.Pasts.{HasPast};
ghost use Rattle.acq_core.specs.Tables.{Tables, new_tables};
ghost use Rattle.acq_core.specs.Widening.{widened_tables};
ghost use Rattle.acq_sql_rows.specs.Rows.{version, version_of_six_digits};
ghost use Rattle.acq_sql_rows.specs.Schema.{no_schema};
ghost use Rattle.acq_sql_rows.specs.Standing.{HoldsAfter, IsAt, IsAtOf};
ghost use Rattle.acq_sql_reads.specs.Looked.{LooksOnly};
ghost use Rattle.acq_sql_checking.specs.Blames.{OpeningBlamesStore};
ghost use Rattle.acq_sql_checking.specs.Checked.{HasBadVersion, IsFailure, Judges};
ghost use Rattle.acq_sql_checking.specs.declared.opening_fault.OpeningFault.TheVariants.{NotABook};
ghost use Rattle.acq_sql_checking.specs.Made.{LeavesDatabase};
ghost use Rattle.acq_sql.specs.Kept.{IsFresh};
ghost use Rattle.acq_sql_opening.specs.Migrated.{IsAsItSays, IsOfSixDigits};
ghost use Rattle.acq_sql.specs.Opened.{IsOpenAt, IsRoomy};

mod looking_up;
mod recording;

use crate::answers::counted;
use crate::memo::Memo;
use crate::refusal::Refusal;
use acq_book::{Book, BookFault, Visit};
use acq_core::{
    Change, Limit, Looked, Merchant, MerchantId, Posting, Reconciliation, Request, Terminal, Wanted,
};
use acq_recall::Lenient;
use acq_soundness::every_opening;
use acq_sql_checking::check_book;
use acq_sql_opening::{make_book, migrate_book};
use acq_sql_rows::tables::VERSION;
use acq_widening::laws::pasts_are_widened;
use card_no::Range;
use day_totals::Day;
use sqlite::{Alter, Connection, Error};
use sqlite_disk::Disk;
use sqlite_store::FileStore;
use std::alloc::Global;
use std::marker::Model;

/// A book in a database. Contracts see its connection, how many of its calls failed for another
/// cause than memory, what it recalls of its tables, and whether a group is begun. One that a
/// failure broke off is begun still, until it is given up.
#[derive(Drop)]
pub struct SqlBook<S: Alter> {
    alloc: Global,
    connection: Connection<S>,
    failures: u64,
    memo: Memo,
    in_group: bool,
}

impl<S: Alter> Model for SqlBook<S> {
    ghost use Rattle.std.specs.Prelude.{◌≡◌, false};
    ghost use Rattle.sqlite.specs.Held.{state};
    ghost use Rattle.sqlite.specs.State.{HasCleanDisk};
    ghost use Rattle.acq_sql.specs.Kept.{Kept, kept_code};

    ghost Value = { Kept S };

    ghost coded = { kept_code S.code };

    ghost view = { λ book. record {
      connection = book.connection;
      failures = book.failures;
      memo = book.memo;
      in_group = book.in_group;
    } };

    ghost invariant = { λ book. book.in_group ≡ false
        → HasCleanDisk (state S.Store book.connection)
        → book.connection.in_transaction ≡ false };
}

impl<S: Alter> SqlBook<S> {
    /// Makes a new book in an empty database, of a connection outside a transaction.
    pub fn create(
        alloc: Global,
        mut connection: Connection<S>,
        limit: Limit,
        first_day: Day,
    ) -> Result<SqlBook<S>, Refusal<S>>
        requires settled { connection.in_transaction ≡ false }
        ensures new { IfOk result (λ book. HasCleanDisk (state S.Store book.connection)
            → IsOpenAt (state S.Store book.connection)
            (new_tables (record { limit = limit; first_day = first_day }))) }
        ensures refused { IfErr result (λ refusal.
            (refusal.fault ≡ NotABook) ↔ (connection.schema ≢ no_schema)) }
        ensures empty { IfOk result (λ book. connection.schema ≡ no_schema) }
        ensures unchanged { IfErr result (λ refusal.
            refusal.fault ≡ NotABook → refusal.connection ≡ connection) }
        ensures undone { IfErr result (λ refusal. LeavesDatabase {T = Unit {0}}
            (state S.Store connection) (state S.Store refusal.connection) (Err refusal.fault)) }
        ensures settled { IfErr result (λ refusal. refusal.connection.in_transaction ≡ false) }
        // A stop leaves what it might before, or the whole new book.
        ensures stop { IfOk result (λ book.
            Survives (state S.Store connection) (state S.Store book.connection)
            (HoldsAfter (new_tables (record { limit = limit; first_day = first_day })))) }
        // After it a stop leaves the whole new book and nothing else.
        ensures left { IfOk result (λ book. HasCleanDisk (state S.Store book.connection)
            → LeavesOnly
            (HoldsAfter (new_tables (record { limit = limit; first_day = first_day })))
            (state S.Store book.connection)) }
        ensures room { IfOk result (λ book. HasCleanDisk (state S.Store book.connection)
            → (state S.Store connection).step_limit ≡ None
            → IsRoomy (state S.Store book.connection)) }
        ensures uncounted { IfOk result (λ book. book.failures ≡ 0) }
        ensures fresh { IfOk result IsFresh }
        ensures refused_stop { IfErr result (λ refusal.
            Survives (state S.Store connection) (state S.Store refusal.connection)
            (HoldsAfter (new_tables (record { limit = limit; first_day = first_day })))) }
        ensures blames { IfErr result (λ refusal. OpeningBlamesStore (state S.Store connection)
            (state S.Store refusal.connection) refusal.fault) }
    {
        every_opening(limit, first_day);
        match make_book(&mut connection, limit, first_day) {
            Ok(()) => Ok(SqlBook {
                alloc,
                connection,
                failures: 0,
                memo: Memo::nothing(),
                in_group: false,
            }),
            Err(fault) => Err(Refusal { fault, connection }),
        }
    }

    /// Takes the database of a connection outside a transaction for the book that it holds.
    pub fn adopt(alloc: Global, mut connection: Connection<S>) -> Result<SqlBook<S>, Refusal<S>>
        requires settled { connection.in_transaction ≡ false }
        ensures same { IfOk result (λ book. HasCleanDisk (state S.Store book.connection)
            → (t : Tables) → IsAt (state S.Store connection) t → HasPast t
            → IsOpenAt (state S.Store book.connection) t) }
        ensures accepts { IfErr result (λ refusal.
            HasCleanDisk (state S.Store refusal.connection) → (t : Tables)
            → IsAt (state S.Store connection) t → IsFailure refusal.fault) }
        // It is taken only where it has the tables and the row of a book of this version.
        ensures taken { IfOk result (λ book. HasCleanDisk (state S.Store book.connection)
            → Judges {T = Unit {0}} version (state S.Store connection).now (Ok tt)) }
        ensures told { IfErr result (λ refusal. HasCleanDisk (state S.Store refusal.connection)
            → Judges {T = Unit {0}} version (state S.Store connection).now (Err refusal.fault)) }
        ensures room { IfOk result (λ book. HasCleanDisk (state S.Store book.connection)
            → IsRoomy (state S.Store connection) → IsRoomy (state S.Store book.connection)) }
        ensures uncounted { IfOk result (λ book. book.failures ≡ 0) }
        ensures fresh { IfOk result IsFresh }
        // It is only looked at.
        ensures looks { IfOk result (λ book.
            LooksOnly (state S.Store connection) (state S.Store book.connection) true) }
        ensures refused_looks { IfErr result (λ refusal.
            LooksOnly (state S.Store connection) (state S.Store refusal.connection) false) }
        // A stop leaves what it might before.
        ensures stop { IfOk result (λ book.
            Survives (state S.Store connection) (state S.Store book.connection) (λ _. ⊥)) }
        ensures refused_stop { IfErr result (λ refusal.
            Survives (state S.Store connection) (state S.Store refusal.connection) (λ _. ⊥)) }
        ensures blames { IfErr result (λ refusal. ¬ HasBadVersion (state S.Store connection).now
            → OpeningBlamesStore (state S.Store connection) (state S.Store refusal.connection)
            refusal.fault) }
    {
        match check_book(&mut connection, alloc, VERSION) {
            Ok(()) => Ok(SqlBook {
                alloc,
                connection,
                failures: 0,
                memo: Memo::nothing(),
                in_group: false,
            }),
            Err(fault) => Err(Refusal { fault, connection }),
        }
    }

    /// Makes the book of version 1 that a database holds, whose ranges are of six digits, one of
    /// version 2 with its ranges widened, of a connection outside a transaction.
    pub fn migrate(alloc: Global, mut connection: Connection<S>) -> Result<SqlBook<S>, Refusal<S>>
        requires settled { connection.in_transaction ≡ false }
        ensures done { IfOk result (λ book. HasCleanDisk (state S.Store book.connection)
            → (t : Tables) → IsOfSixDigits (state S.Store connection) t
            → IsOpenAt (state S.Store book.connection) (widened_tables t)) }
        ensures accepts { IfErr result (λ refusal.
            HasCleanDisk (state S.Store refusal.connection) → (t : Tables)
            → IsAtOf version_of_six_digits (state S.Store connection) t
            → IsFailure refusal.fault) }
        ensures undone { IfErr result (λ refusal.
            HasCleanDisk (state S.Store refusal.connection)
            → IsTrue (state S.Store refusal.connection).is_open → (t : Tables)
            → IsAtOf version_of_six_digits (state S.Store connection) t
            → IsAtOf version_of_six_digits (state S.Store refusal.connection) t) }
        ensures settled { IfErr result (λ refusal. refusal.connection.in_transaction ≡ false) }
        // A database that is no book of version 1 is only looked at.
        ensures unchanged { IfErr result (λ refusal. ¬ IsFailure refusal.fault
            → LooksOnly (state S.Store connection) (state S.Store refusal.connection) false) }
        ensures taken { IfOk result (λ book. HasCleanDisk (state S.Store book.connection)
            → Judges {T = Unit {0}} version_of_six_digits (state S.Store connection).now
            (Ok tt)) }
        ensures told { IfErr result (λ refusal. HasCleanDisk (state S.Store refusal.connection)
            → Judges {T = Unit {0}} version_of_six_digits (state S.Store connection).now
            (Err refusal.fault)) }
        ensures uncounted { IfOk result (λ book. book.failures ≡ 0) }
        ensures fresh { IfOk result IsFresh }
        // A stop leaves what it might before, or the whole book of version 2.
        ensures stop { IfOk result (λ book.
            Survives (state S.Store connection) (state S.Store book.connection)
            (λ trees. (t : Tables) → IsOfSixDigits (state S.Store connection) t
            → HoldsAfter (widened_tables t) trees)) }
        ensures refused_stop { IfErr result (λ refusal.
            Survives (state S.Store connection) (state S.Store refusal.connection)
            (λ trees. (t : Tables) → IsOfSixDigits (state S.Store connection) t
            → HoldsAfter (widened_tables t) trees)) }
        ensures blames { IfErr result (λ refusal. IsAsItSays (state S.Store connection)
            → OpeningBlamesStore (state S.Store connection) (state S.Store refusal.connection)
            refusal.fault) }
    {
        pasts_are_widened();
        match migrate_book(&mut connection, alloc) {
            Ok(()) => Ok(SqlBook {
                alloc,
                connection,
                failures: 0,
                memo: Memo::nothing(),
                in_group: false,
            }),
            Err(fault) => Err(Refusal { fault, connection }),
        }
    }

    /// The connection.
    pub fn into_connection(self) -> Connection<S>
        ensures connection { result ≡ self.connection }
        ensures settled { self.in_group ≡ false → HasCleanDisk (state S.Store result)
            → result.in_transaction ≡ false }
    {
        self.connection
    }

    /// Outside a group the connection shows what was committed.
    fn settled(&self)
        ensures { self.now.in_group ≡ false → HasCleanDisk (state S.Store self.now.connection)
            → IsTrue (state S.Store self.now.connection).is_open
            → (state S.Store self.now.connection).now
            ≡ (state S.Store self.now.connection).committed }
    {
        self.connection.is_autocommit();
    }
}

impl<D: Disk + Drop> SqlBook<FileStore<D>> {
    /// Copies what the log holds into the database file, and closes both.
    pub fn close(self) -> Result<(), Error>
        ensures { IfErr result (λ error. (cause : _) × (error ≡ store_error cause)) }
    {
        self.connection.close()
    }
}

impl<S: Alter> Book for SqlBook<S> {
    ghost use Rattle.acq_sql.specs.Opened as opened;
    ghost use Rattle.acq_sql.specs.Laws.{returnable, settled_at, stored_at};

    ghost tables = { opened.tables S.Store };

    ghost is_honest = { opened.is_honest S.Store };

    ghost is_open = { opened.is_open S.Store };

    ghost is_within = { opened.is_within S.Store };

    ghost can_return = { opened.can_return S.Store };

    ghost may_leave = { opened.may_leave S.Store };

    ghost leaves_books = { opened.leaves_books S.Store };

    ghost failures = { λ book. book.failures };

    ghost store_faults = { opened.store_faults S.Store };

    ghost has_room = { opened.has_room S.Store };

    ghost honest = { λ book is. is.opened.clean };

    // In a law the store is known by its members alone.
    ghost settled = { settled_at (record {
      view = S.Store.view;
      faults = S.Store.faults;
      recovers = S.Store.recovers;
      is_shielded = S.Store.is_shielded;
      is_step = S.Store.is_step;
      blamed = S.Store.blamed;
      names = S.Store.names;
    }) S.Store.settled };

    ghost stored = { stored_at (record {
      view = S.Store.view;
      faults = S.Store.faults;
      recovers = S.Store.recovers;
      is_shielded = S.Store.is_shielded;
      is_step = S.Store.is_step;
      blamed = S.Store.blamed;
      names = S.Store.names;
    }) S.Store.settled };

    ghost past = { λ book is. is.opened.past };

    ghost past_within = { λ book began faults is. is.past };

    ghost returns = { λ book began faults is. returnable is };

    fn look_up(&mut self, wanted: &Wanted) -> Result<Looked, BookFault> {
        let (limit, today) = self.limit_and_day()?;
        let mut looked = Looked::nothing(today, limit);
        match self.look_up_wanted(wanted, &mut looked) {
            Ok(()) => Ok(looked),
            Err(fault) => {
                drop(looked);
                Err(fault)
            }
        }
    }

    fn terminal_count(&mut self) -> Result<u64, BookFault> {
        self.settled();
        let answer = acq_sql_reads::terminal_count(&mut self.connection);
        counted(&mut self.failures, answer)
    }

    fn range_count(&mut self) -> Result<u64, BookFault> {
        self.settled();
        let answer = acq_sql_reads::range_count(&mut self.connection);
        counted(&mut self.failures, answer)
    }

    fn used_on(&mut self, day: Day) -> Result<u64, BookFault> {
        if let Some(count) = self.memo.used_on(day) {
            return Ok(count);
        }
        self.settled();
        let answer = acq_sql_reads::used_on(&mut self.connection, day);
        let told = counted(&mut self.failures, answer);
        self.memo.note_used(day, &told);
        told
    }

    fn pending(&mut self, day: Day) -> Result<u64, BookFault> {
        self.settled();
        let answer = acq_sql_reads::pending(&mut self.connection, day);
        counted(&mut self.failures, answer)
    }

    fn waiting_count(&mut self) -> Result<u64, BookFault> {
        if self.memo.none_waits() {
            return Ok(0);
        }
        self.settled();
        let answer = acq_sql_reads::waiting_count(&mut self.connection);
        let told = counted(&mut self.failures, answer);
        self.memo.note_waiting(&told);
        told
    }

    fn last_reconciliation(
        &mut self,
        merchant: MerchantId,
        day: Day,
    ) -> Result<Option<Reconciliation>, BookFault> {
        self.settled();
        let answer = acq_sql_reads::last_reconciliation(&mut self.connection, merchant, day);
        let last = counted(&mut self.failures, answer)?;
        Ok(without_number(last))
    }

    fn walk_postings<V: Visit<(u64, Posting)>>(
        &mut self,
        day: Day,
        visitor: &mut V,
    ) -> Result<(), BookFault> {
        self.settled();
        let walked = acq_sql_reads::walk_postings(&mut self.connection, self.alloc, day, visitor);
        counted(&mut self.failures, walked)
    }

    fn walk_postings_above<V: Visit<(u64, Posting)>>(
        &mut self,
        merchant: MerchantId,
        day: Day,
        number: u64,
        visitor: &mut V,
    ) -> Result<(), BookFault> {
        self.settled();
        let walked = acq_sql_reads::walk_postings_above(
            &mut self.connection,
            self.alloc,
            merchant,
            day,
            number,
            visitor,
        );
        counted(&mut self.failures, walked)
    }

    fn walk_postings_behind<V: Visit<(u64, Posting)>>(
        &mut self,
        merchant: MerchantId,
        day: Day,
        visitor: &mut V,
    ) -> Result<(), BookFault> {
        self.settled();
        let walked = acq_sql_reads::walk_postings_behind(
            &mut self.connection,
            self.alloc,
            merchant,
            day,
            visitor,
        );
        counted(&mut self.failures, walked)
    }

    fn walk_merchants<V: Visit<Merchant>>(&mut self, visitor: &mut V) -> Result<(), BookFault> {
        self.settled();
        let walked = acq_sql_reads::walk_merchants(&mut self.connection, visitor);
        counted(&mut self.failures, walked)
    }

    fn walk_terminals<V: Visit<Terminal>>(&mut self, visitor: &mut V) -> Result<(), BookFault> {
        self.settled();
        let walked = acq_sql_reads::walk_terminals(&mut self.connection, visitor);
        counted(&mut self.failures, walked)
    }

    fn walk_ranges<V: Visit<Range>>(&mut self, visitor: &mut V) -> Result<(), BookFault> {
        self.settled();
        let walked = acq_sql_reads::walk_ranges(&mut self.connection, self.alloc, visitor);
        counted(&mut self.failures, walked)
    }

    fn walk_holds<V: Visit<Request>>(
        &mut self,
        merchant: MerchantId,
        visitor: &mut V,
    ) -> Result<(), BookFault> {
        self.settled();
        let walked = acq_sql_reads::walk_holds(&mut self.connection, self.alloc, merchant, visitor);
        counted(&mut self.failures, walked)
    }

    fn walk_pending<V: Visit<Request>>(&mut self, visitor: &mut V) -> Result<(), BookFault> {
        self.settled();
        let walked = acq_sql_reads::walk_pending(&mut self.connection, self.alloc, visitor);
        counted(&mut self.failures, walked)
    }

    fn walk_requests_behind<V: Visit<Request>>(
        &mut self,
        rows: u64,
        visitor: &mut V,
    ) -> Result<(), BookFault> {
        self.settled();
        let walked = acq_sql_reads::walk_requests_behind(
            &mut self.connection,
            self.alloc,
            rows,
            visitor,
        );
        counted(&mut self.failures, walked)
    }

    fn apply(&mut self, change: &Change) -> Result<(), BookFault> {
        self.apply_any(change)
    }

    fn begin(&mut self) -> Result<(), BookFault> {
        let begun = acq_sql_changes::begin(&mut self.connection);
        self.in_group = is_in_group(self.in_group, begun.is_ok());
        counted(&mut self.failures, begun)
    }

    fn keep(&mut self) -> Result<(), BookFault> {
        let kept = acq_sql_changes::keep(&mut self.connection);
        self.in_group = false;
        self.memo = self.memo.if_kept(kept.is_ok());
        counted(&mut self.failures, kept)
    }

    fn give_up(&mut self) {
        acq_sql_changes::roll_back(&mut self.connection);
        self.in_group = false;
        self.memo = Memo::nothing();
    }
}

/// Whether a group is begun, also where one was and no other could begin.
fn is_in_group(was: bool, has_begun: bool) -> bool
    ensures begun { has_begun ≡ true → result ≡ true }
    ensures not { has_begun ≡ false → result ≡ was }
{
    was || has_begun
}

/// A reconciliation without its number.
fn without_number(last: Option<(u64, Reconciliation)>) -> Option<Reconciliation>
    ensures { result ≡ option_map (λ row. row.1) last }
{
    match last {
        Some((_, reconciliation)) => Some(reconciliation),
        None => None,
    }
}

impl<S: Alter> Lenient for SqlBook<S> {
    fn apply_any(&mut self, change: &Change) -> Result<(), BookFault> {
        let in_group = self.in_group;
        let made = crate::apply::apply(&mut self.connection, self.alloc, change, in_group);
        self.memo = self.memo.after(change, made.is_ok());
        counted(&mut self.failures, made)
    }
}
