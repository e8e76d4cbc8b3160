//! Walks over postings, merchants, terminals, ranges, holds and the requests that wait for an
//! answer.

ghost use Rattle.std.specs.Prelude.{◌≡◌, ◌-◌, ◌^◌, ◌++◌, ◌∷◌, [], is_ok, min};
ghost use Rattle.sqlite.specs.Held.{state};
ghost use Rattle.sqlite_value.specs.Value.{owned};
ghost use Rattle.row_lemmas.specs.Values.{number};
ghost use Rattle.acq_core.specs.Pasts.{HasPast};
ghost use Rattle.acq_book.specs.Lookups.{merchants_at, terminals_at, ranges_at};
ghost use Rattle.acq_book.specs.Lookups.{holds_at, waiting_at, requests_behind_at};
ghost use Rattle.acq_book.specs.Lookups.{postings_at, postings_above_at, postings_behind_at};
ghost use Rattle.acq_book.specs.Visits.{SawRows};
ghost use Rattle.acq_sql_reads.specs.Failing.{AreNumbered, CanBeWalked, FailsOnlyExcusedWhere};
ghost use Rattle.acq_sql_reads.specs.Looked.{LooksOnly};
ghost use Rattle.acq_sql_reads.specs.Walked.{WalksAll, WalksSome, WalksAllWhere, WalksSomeWhere};

use crate::read_row::{
    MerchantRows, NoRequestRows, PostingRows, RangeRows, RequestRows, TerminalRows,
};
use crate::show_rows::show_rows;
use acq_book::Visit;
use acq_core::{Merchant, Posting, Request, Terminal};
use acq_message::MerchantId;
use acq_sql_rows::{day_value, number_value};
use card_no::Range;
use day_totals::Day;
use sqlite::types::ValueRef;
use sqlite::{Alter, Connection, Error};
use std::alloc::Global;

const POSTINGS: &str = "SELECT merchant, day, number, leg, amount, reference, card, terminal, \
    trace FROM postings WHERE day = ?1 ORDER BY merchant, number";

const ABOVE: &str = "SELECT merchant, day, number, leg, amount, reference, card, terminal, \
    trace FROM postings WHERE day = ?1 AND merchant = ?2 AND number > ?3 \
    ORDER BY merchant, number";

const BEHIND: &str = "SELECT merchant, day, number, leg, amount, reference, card, terminal, \
    trace FROM postings WHERE day = ?1 AND merchant >= ?2 ORDER BY merchant, number";

const MERCHANTS: &str = "SELECT merchant, currency, first FROM merchants ORDER BY merchant";

const TERMINALS: &str = "SELECT merchant, terminal FROM terminals ORDER BY merchant, terminal";

const RANGES: &str = "SELECT low, high, issuer, hold_days FROM ranges ORDER BY low";

const HOLDS: &str = "SELECT merchant, terminal, kind, trace, stamp, essence, day, status, \
    admitted, reference, follows, amount, leg, card, acquirer, hold_days, until, reply \
    FROM requests WHERE merchant = ?1 AND kind = '010' \
    AND (status = 3 OR status = 8) ORDER BY reference";

const WAITING: &str = "SELECT merchant, terminal, kind, trace, stamp, essence, day, status, \
    admitted, reference, follows, amount, leg, card, acquirer, hold_days, until, reply \
    FROM requests WHERE status = 1 ORDER BY rowid";

const REQUESTS_BEHIND: &str = "SELECT merchant, terminal, kind, trace, stamp, essence, day, \
    status, admitted, reference, follows, amount, leg, card, acquirer, hold_days, until, reply \
    FROM requests WHERE rowid > ?1 ORDER BY rowid";

/// The greatest number that a column can keep.
const GREATEST: u64 = i64::MAX as u64;

/// Hands over the postings of a day, each with its number, in order of merchant and number.
pub fn walk_postings<S: Alter, V: Visit<(u64, Posting)>>(
    conn: &mut Connection<S>,
    alloc: Global,
    day: Day,
    visitor: &mut V,
) -> Result<(), Error>
    ensures seen { WalksAllWhere (state S.Store conn.old) (state S.Store conn.new) result
        V.sees HasPast (λ t. postings_at t day) visitor.old visitor.new }
    ensures begun { WalksSomeWhere (state S.Store conn.old) (state S.Store conn.new) result
        V.sees HasPast (λ t. postings_at t day) visitor.old visitor.new }
    ensures shown { SawRows V.sees visitor.old visitor.new (is_ok result) }
    ensures looks { LooksOnly (state S.Store conn.old) (state S.Store conn.new) (is_ok result) }
    ensures fails { FailsOnlyExcusedWhere (state S.Store conn.old) (state S.Store conn.new) result
        (λ t. CanBeWalked (postings_at t day)) }
{
    show_rows(
        conn,
        POSTINGS,
        &[day_value(day)],
        &PostingRows { alloc },
        visitor,
    )
}

/// Hands over those of a merchant and day with numbers above one, in order of number.
pub fn walk_postings_above<S: Alter, V: Visit<(u64, Posting)>>(
    conn: &mut Connection<S>,
    alloc: Global,
    merchant: MerchantId,
    day: Day,
    number: u64,
    visitor: &mut V,
) -> Result<(), Error>
    ensures seen { WalksAllWhere (state S.Store conn.old) (state S.Store conn.new) result
        V.sees HasPast (λ t. postings_above_at t merchant day number) visitor.old visitor.new }
    ensures begun { WalksSomeWhere (state S.Store conn.old) (state S.Store conn.new) result
        V.sees HasPast (λ t. postings_above_at t merchant day number) visitor.old visitor.new }
    ensures shown { SawRows V.sees visitor.old visitor.new (is_ok result) }
    ensures looks { LooksOnly (state S.Store conn.old) (state S.Store conn.new) (is_ok result) }
    ensures fails { FailsOnlyExcusedWhere (state S.Store conn.old) (state S.Store conn.new) result
        (λ t. CanBeWalked (postings_above_at t merchant day number)) }
{
    let merchant = merchant.to_bytes();
    show_rows(
        conn,
        ABOVE,
        &[
            day_value(day),
            ValueRef::Text(&merchant),
            number_or_greatest(number),
        ],
        &PostingRows { alloc },
        visitor,
    )
}

/// A number, or the greatest that a column can keep, which no posting's number is above.
fn number_or_greatest(n: u64) -> ValueRef<'static>
    ensures { owned result ≡ number (min n (2 ^ 63 - 1)) }
{
    number_value(n.min(GREATEST))
}

/// Hands over those of a day of the merchants whose names are behind one, in order of merchant and
/// number.
pub fn walk_postings_behind<S: Alter, V: Visit<(u64, Posting)>>(
    conn: &mut Connection<S>,
    alloc: Global,
    merchant: MerchantId,
    day: Day,
    visitor: &mut V,
) -> Result<(), Error>
    ensures seen { WalksAllWhere (state S.Store conn.old) (state S.Store conn.new) result
        V.sees HasPast (λ t. postings_behind_at t merchant day) visitor.old visitor.new }
    ensures begun { WalksSomeWhere (state S.Store conn.old) (state S.Store conn.new) result
        V.sees HasPast (λ t. postings_behind_at t merchant day) visitor.old visitor.new }
    ensures shown { SawRows V.sees visitor.old visitor.new (is_ok result) }
    ensures looks { LooksOnly (state S.Store conn.old) (state S.Store conn.new) (is_ok result) }
    ensures fails { FailsOnlyExcusedWhere (state S.Store conn.old) (state S.Store conn.new) result
        (λ t. CanBeWalked (postings_behind_at t merchant day)) }
{
    let next = next_text(merchant);
    show_rows(
        conn,
        BEHIND,
        &[day_value(day), ValueRef::Text(&next)],
        &PostingRows { alloc },
        visitor,
    )
}

/// The first of all texts behind a merchant's name. A scan begins there, where one behind the name
/// itself would pass over all the postings that the merchant has.
fn next_text(merchant: MerchantId) -> [u8; 16]
    ensures { result ≡ merchant ++ 0 ∷ [] }
{
    let name = merchant.to_bytes();
    let mut next = [0; 16];
    next[..15].copy_from_slice(&name);
    next
}

/// Hands over the merchants, in order of their names.
pub fn walk_merchants<S: Alter, V: Visit<Merchant>>(
    conn: &mut Connection<S>,
    visitor: &mut V,
) -> Result<(), Error>
    ensures seen { WalksAll (state S.Store conn.old) (state S.Store conn.new) result
        V.sees merchants_at visitor.old visitor.new }
    ensures begun { WalksSome (state S.Store conn.old) (state S.Store conn.new) result
        V.sees merchants_at visitor.old visitor.new }
    ensures shown { SawRows V.sees visitor.old visitor.new (is_ok result) }
    ensures looks { LooksOnly (state S.Store conn.old) (state S.Store conn.new) (is_ok result) }
    ensures fails { FailsOnlyExcusedWhere (state S.Store conn.old) (state S.Store conn.new) result
        (λ t. CanBeWalked (merchants_at t)) }
{
    show_rows(conn, MERCHANTS, &[], &MerchantRows, visitor)
}

/// Hands over the terminals of all merchants, in order of merchant and name.
pub fn walk_terminals<S: Alter, V: Visit<Terminal>>(
    conn: &mut Connection<S>,
    visitor: &mut V,
) -> Result<(), Error>
    ensures seen { WalksAll (state S.Store conn.old) (state S.Store conn.new) result
        V.sees terminals_at visitor.old visitor.new }
    ensures begun { WalksSome (state S.Store conn.old) (state S.Store conn.new) result
        V.sees terminals_at visitor.old visitor.new }
    ensures shown { SawRows V.sees visitor.old visitor.new (is_ok result) }
    ensures looks { LooksOnly (state S.Store conn.old) (state S.Store conn.new) (is_ok result) }
    ensures fails { FailsOnlyExcusedWhere (state S.Store conn.old) (state S.Store conn.new) result
        (λ t. CanBeWalked (terminals_at t)) }
{
    show_rows(conn, TERMINALS, &[], &TerminalRows, visitor)
}

/// Hands over the ranges, in order of low.
pub fn walk_ranges<S: Alter, V: Visit<Range>>(
    conn: &mut Connection<S>,
    alloc: Global,
    visitor: &mut V,
) -> Result<(), Error>
    ensures seen { WalksAll (state S.Store conn.old) (state S.Store conn.new) result
        V.sees ranges_at visitor.old visitor.new }
    ensures begun { WalksSome (state S.Store conn.old) (state S.Store conn.new) result
        V.sees ranges_at visitor.old visitor.new }
    ensures shown { SawRows V.sees visitor.old visitor.new (is_ok result) }
    ensures looks { LooksOnly (state S.Store conn.old) (state S.Store conn.new) (is_ok result) }
    ensures fails { FailsOnlyExcusedWhere (state S.Store conn.old) (state S.Store conn.new) result
        (λ t. CanBeWalked (ranges_at t)) }
{
    show_rows(conn, RANGES, &[], &RangeRows { alloc }, visitor)
}

/// Hands over a merchant's approved holds, which are neither completed nor reversed, in order of
/// reference.
pub fn walk_holds<S: Alter, V: Visit<Request>>(
    conn: &mut Connection<S>,
    alloc: Global,
    merchant: MerchantId,
    visitor: &mut V,
) -> Result<(), Error>
    ensures seen { WalksAllWhere (state S.Store conn.old) (state S.Store conn.new) result
        V.sees HasPast (λ t. holds_at t merchant) visitor.old visitor.new }
    ensures begun { WalksSomeWhere (state S.Store conn.old) (state S.Store conn.new) result
        V.sees HasPast (λ t. holds_at t merchant) visitor.old visitor.new }
    ensures shown { SawRows V.sees visitor.old visitor.new (is_ok result) }
    ensures looks { LooksOnly (state S.Store conn.old) (state S.Store conn.new) (is_ok result) }
    ensures fails { FailsOnlyExcusedWhere (state S.Store conn.old) (state S.Store conn.new) result
        (λ t. CanBeWalked (holds_at t merchant)) }
{
    let merchant = merchant.to_bytes();
    show_rows(
        conn,
        HOLDS,
        &[ValueRef::Text(&merchant)],
        &RequestRows { alloc },
        visitor,
    )
}

/// Hands over the requests of all merchants and days that wait for their issuer's answer, in the
/// order in which they came.
pub fn walk_pending<S: Alter, V: Visit<Request>>(
    conn: &mut Connection<S>,
    alloc: Global,
    visitor: &mut V,
) -> Result<(), Error>
    ensures seen { WalksAll (state S.Store conn.old) (state S.Store conn.new) result
        V.sees waiting_at visitor.old visitor.new }
    ensures begun { WalksSome (state S.Store conn.old) (state S.Store conn.new) result
        V.sees waiting_at visitor.old visitor.new }
    ensures shown { SawRows V.sees visitor.old visitor.new (is_ok result) }
    ensures looks { LooksOnly (state S.Store conn.old) (state S.Store conn.new) (is_ok result) }
    ensures fails { FailsOnlyExcusedWhere (state S.Store conn.old) (state S.Store conn.new) result
        (λ t. CanBeWalked (waiting_at t)) }
{
    show_rows(conn, WAITING, &[], &RequestRows { alloc }, visitor)
}

/// Hands over the requests behind so many rows, in the order in which they came.
pub fn walk_requests_behind<S: Alter, V: Visit<Request>>(
    conn: &mut Connection<S>,
    alloc: Global,
    rows: u64,
    visitor: &mut V,
) -> Result<(), Error>
    ensures seen { WalksAll (state S.Store conn.old) (state S.Store conn.new) result
        V.sees (λ t. requests_behind_at t rows) visitor.old visitor.new }
    ensures begun { WalksSome (state S.Store conn.old) (state S.Store conn.new) result
        V.sees (λ t. requests_behind_at t rows) visitor.old visitor.new }
    ensures shown { SawRows V.sees visitor.old visitor.new (is_ok result) }
    ensures looks { LooksOnly (state S.Store conn.old) (state S.Store conn.new) (is_ok result) }
    ensures fails { FailsOnlyExcusedWhere (state S.Store conn.old) (state S.Store conn.new) result
        (λ t. AreNumbered t.requests) }
{
    if rows > GREATEST {
        // A row has a number that a column can keep, so there are none.
        return show_rows(
            conn,
            REQUESTS_BEHIND,
            &[number_value(GREATEST)],
            &NoRequestRows,
            visitor,
        );
    }
    show_rows(
        conn,
        REQUESTS_BEHIND,
        &[number_value(rows)],
        &RequestRows { alloc },
        visitor,
    )
}
