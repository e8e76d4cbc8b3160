//! Recorded requests.

ghost use Rattle.std.specs.Prelude.{◌≡◌, IfOk, is_ok};
ghost use Rattle.sqlite.specs.State.{HasCleanDisk};
ghost use Rattle.sqlite.specs.Held.{state};
ghost use Rattle.acq_core.specs.Tables.{Tables};
ghost use Rattle.acq_core.specs.Pasts.{HasPast};
ghost use Rattle.acq_book.specs.Lookups.{request_at, referred_at};
ghost use Rattle.acq_sql_rows.specs.Relation.{Holds};
ghost use Rattle.acq_sql_reads.specs.Looked.{AnswersWhere, LooksOnly};
ghost use Rattle.acq_sql_reads.specs.Recorded.{ShowsRequest};
ghost use Rattle.acq_sql_reads.specs.Failing.{FailsOnlyExcused};

use crate::request_row::read_request;
use acq_core::Request;
use acq_message::{MerchantId, Reference, RequestKey};
use acq_sql_rows::reference_value;
use sqlite::types::ValueRef;
use sqlite::{Alter, Connection, Error, Row};
use std::alloc::Global;

const BY_KEY: &str = "SELECT merchant, terminal, kind, trace, stamp, essence, day, status, \
    admitted, reference, follows, amount, leg, card, acquirer, hold_days, until, reply \
    FROM requests WHERE merchant = ?1 AND terminal = ?2 AND kind = ?3 AND trace = ?4 \
    AND stamp = ?5";

const BY_REFERENCE: &str = "SELECT merchant, terminal, kind, trace, stamp, essence, day, status, \
    admitted, reference, follows, amount, leg, card, acquirer, hold_days, until, reply \
    FROM requests WHERE merchant = ?1 AND reference = ?2";

/// The request with this key.
pub fn request<S: Alter>(
    conn: &mut Connection<S>,
    alloc: Global,
    key: RequestKey,
) -> Result<Option<Request>, Error>
    ensures answers { AnswersWhere (state S.Store conn.old) (state S.Store conn.new) result
        HasPast (λ t. request_at t key) }
    ensures looks { LooksOnly (state S.Store conn.old) (state S.Store conn.new) (is_ok result) }
    ensures fails { FailsOnlyExcused (state S.Store conn.old) (state S.Store conn.new) result }
{
    let rows = request_rows(conn, key)?;
    match rows.first() {
        Some(row) => Ok(Some(read_request(alloc, row)?)),
        None => Ok(None),
    }
}

/// The request's row, if there is one.
fn request_rows<S: Alter>(conn: &mut Connection<S>, key: RequestKey) -> Result<Vec<Row>, Error>
    ensures answers { HasCleanDisk (state S.Store conn.new) → (t : Tables)
        → Holds (state S.Store conn.old).now t → HasPast t → IfOk result
        (λ rows. ShowsRequest (request_at t key) rows.items) }
    ensures looks { LooksOnly (state S.Store conn.old) (state S.Store conn.new) (is_ok result) }
    ensures fails { FailsOnlyExcused (state S.Store conn.old) (state S.Store conn.new) result }
{
    let merchant = key.merchant.to_bytes();
    let terminal = key.terminal.to_bytes();
    let kind = key.service.digits();
    let trace = key.trace.to_bytes();
    let stamp = key.transmission.to_bytes();
    conn.query_all(
        BY_KEY,
        &[
            ValueRef::Text(&merchant),
            ValueRef::Text(&terminal),
            ValueRef::Text(&kind),
            ValueRef::Text(&trace),
            ValueRef::Text(&stamp),
        ],
    )
}

/// The merchant's request with this reference.
pub fn by_reference<S: Alter>(
    conn: &mut Connection<S>,
    alloc: Global,
    merchant: MerchantId,
    reference: Reference,
) -> Result<Option<Request>, Error>
    ensures answers { AnswersWhere (state S.Store conn.old) (state S.Store conn.new) result
        HasPast (λ t. referred_at t merchant reference) }
    ensures looks { LooksOnly (state S.Store conn.old) (state S.Store conn.new) (is_ok result) }
    ensures fails { FailsOnlyExcused (state S.Store conn.old) (state S.Store conn.new) result }
{
    let rows = reference_rows(conn, merchant, reference)?;
    match rows.first() {
        Some(row) => Ok(Some(read_request(alloc, row)?)),
        None => Ok(None),
    }
}

/// The row of that request, if there is one.
fn reference_rows<S: Alter>(
    conn: &mut Connection<S>,
    merchant: MerchantId,
    reference: Reference,
) -> Result<Vec<Row>, Error>
    ensures answers { HasCleanDisk (state S.Store conn.new) → (t : Tables)
        → Holds (state S.Store conn.old).now t → HasPast t → IfOk result
        (λ rows. ShowsRequest (referred_at t merchant reference) rows.items) }
    ensures looks { LooksOnly (state S.Store conn.old) (state S.Store conn.new) (is_ok result) }
    ensures fails { FailsOnlyExcused (state S.Store conn.old) (state S.Store conn.new) result }
{
    let merchant = merchant.to_bytes();
    conn.query_all(
        BY_REFERENCE,
        &[ValueRef::Text(&merchant), reference_value(reference)],
    )
}
