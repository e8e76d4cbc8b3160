//! An audit of a file whose connection is let go.

ghost use Rattle.std.specs.Prelude.{◌≡◌, Err, IfOk, Ok, false};
ghost use Rattle.sqlite.specs.Held.{state};
ghost use Rattle.sqlite_trees.specs.Tree.{Trees};
ghost use Rattle.sqlite_trees.specs.View.{IsClean};
ghost use Rattle.acq_core.specs.Pasts.{HasPast};
ghost use Rattle.acq_sql_rows.specs.Schema.{IsBookSchema};
ghost use Rattle.acq_sql_audit.specs.Audited.{Audits, made_by};
ghost use Rattle.acq_sql_audit.specs.declared.audit_fault.AuditFault.TheVariants.{NotABook};

use crate::auditing::audit;
use crate::{AuditFault, Difference};
use acq_core::{Event, Limit};
use day_totals::Day;
use sqlite::{Alter, Connection};
use std::alloc::Global;

/// Audits the file of a connection outside a transaction, and gives its store back. That it lists
/// each table in order of rowid is a law of a store that has not failed, which is asked here.
pub fn audit_file<S: Alter + Drop>(
    alloc: Global,
    mut file: Connection<S>,
    limit: Limit,
    first_day: Day,
    events: &[Event],
) -> (S, Result<Option<Difference>, AuditFault>)
    requires settled { file.in_transaction ≡ false }
    ensures audits { IsClean (S.Store.view result.0) → IfOk result.1
        (Audits (state S.Store file).now (made_by limit first_day events.now)) }
    ensures past { IfOk result.1 (λ difference. HasPast (made_by limit first_day events.now)) }
    ensures refused { result.1 ≡ Err NotABook → ¬ IsBookSchema (state S.Store file).now.schema }
    // A stop leaves what it might before.
    ensures stop { IsClean (S.Store.view result.0) → (trees : Trees)
        → S.Store.recovers result.0 trees → S.Store.recovers file.store trees }
{
    file.is_autocommit();
    file.schema();
    let found = audit(alloc, &mut file, limit, first_day, events);
    let store = file.into_store();
    let has_failed = store.is_broken();
    (store, unless(has_failed, found))
}

/// What was found, unless the store has failed.
fn unless(
    has_failed: bool,
    found: Result<Option<Difference>, AuditFault>,
) -> Result<Option<Difference>, AuditFault>
    ensures failed { IfOk result (λ difference. has_failed ≡ false) }
    ensures found { IfOk result (λ difference. found ≡ Ok difference) }
    ensures refused { result ≡ Err NotABook → found ≡ Err NotABook }
{
    match found {
        Ok(_) if has_failed => Err(AuditFault::Store),
        found => found,
    }
}
