//! Recorded requests, found by key and by reference.

ghost use Rattle.std.specs.Prelude.{◌≡◌, ◌+◌, ◌<◌, ◌≤◌, ◌++◌, ◌∷◌, ◌&&◌};
ghost use Rattle.std.specs.Prelude.{ℕ, List, [], true, Some, None};
ghost use Rattle.std.specs.Prelude.{◌==◌, drop, filter, find, length, map, slice_get};
ghost use Rattle.std.specs.Prelude.{if◌then◌else◌};
ghost use Rattle.std.specs.Prelude.{IfSome, IfOk, OnOk, MatchOption};
ghost use Rattle.std.specs.Map.Iter.{deref};
ghost use Rattle.std.specs.Option.{option_copied};
ghost use Rattle.std.specs.Map.{count_at};
ghost use Rattle.std.specs.Str.{bytes_eq};
ghost use Rattle.indexmap.specs.IndexMap.{values, get, spare, IsUnique};
ghost use Rattle.acq_message.specs.Numbers.{is_number};
ghost use Rattle.acq_message.specs.Elements.{same_key};
ghost use Rattle.acq_core.specs.Numbers.{is_used_count, is_admitted_count};
ghost use Rattle.acq_core.specs.Tables.{count, is_pending, is_approved};
ghost use Rattle.acq_core.specs.Tables.{requests_of, used_in, admitted_in};
ghost use Rattle.acq_core.specs.Tables.{with_changed, answered_row, followed_row};
ghost use Rattle.acq_book.specs.Keys.{key_eq, merchant_eq};
ghost use Rattle.acq_lists.specs.Keys.{day_eq, reference_eq, changed_at};
ghost use Rattle.acq_book.specs.Lookups.{is_authorization};
ghost use Rattle.acq_lists.specs.Rows.{IsNewRow};

use crate::merchant_day::MerchantDay;
use crate::merchant_reference::MerchantReference;
use crate::put::put;
use acq_core::{
    AdmittedCount, MerchantId, Reference, Remains, Request, RequestKey, Service, Status, UsedCount,
};
use day_totals::Day;
use indexmap::IndexMap;
use iso_codec::Message;
use std::alloc::{AllocError, Global};
use std::hash::RandomState;
use std::marker::Model;

/// The requests, in the order in which they came.
#[derive(Drop)]
pub struct Requests {
    rows: IndexMap<RequestKey, Request, RandomState>,
    /// The places of the rows.
    places: IndexMap<MerchantReference, usize, RandomState>,
    /// How many count against the limit of a merchant's day.
    used: IndexMap<MerchantDay, UsedCount, RandomState>,
    /// How many references a merchant has given.
    admitted: IndexMap<MerchantId, AdmittedCount, RandomState>,
    /// So many more take no memory.
    room: usize,
}

impl Model for Requests {
    ghost use Rattle.acq_core.specs.declared.request.Request.{Request};
    ghost use Rattle.indexmap.specs.IndexMap.{values};
    ghost use Rattle.acq_lists.specs.Stored.{Stored};
    ghost use Rattle.acq_lists.specs.Indexes.{HasRequests};

    ghost Value = { Stored Request };

    ghost view = { λ s. record { rows = values s.rows; room = s.room } };

    ghost invariant = { HasRequests };
}

impl Requests {
    /// No requests. It takes no memory.
    pub fn new(alloc: Global, keys: RandomState) -> Requests
        ensures { result.rows ≡ [] }
    {
        Requests {
            rows: IndexMap::with_hasher(alloc, keys),
            places: IndexMap::with_hasher(alloc, keys),
            used: IndexMap::with_hasher(alloc, keys),
            admitted: IndexMap::with_hasher(alloc, keys),
            room: 0,
        }
    }

    /// The request with this key.
    pub fn get(&self, key: &RequestKey) -> Option<&Request>
        ensures { option_copied result ≡ find (λ row. same_key row.key key.now) self.now.rows }
    {
        self.rows.get(key)
    }

    /// The merchant's request with this reference.
    pub fn by_reference(&self, merchant: MerchantId, reference: Reference) -> Option<&Request>
        ensures { option_copied result ≡ find (λ row. is_number reference row.reference)
            (requests_of merchant self.now.rows) }
    {
        match self.places.get(&MerchantReference {
            merchant,
            reference,
        }) {
            Some(place) => row_at(&self.rows, *place),
            None => None,
        }
    }

    /// How many of the merchant's messages count against the limit of this day.
    pub fn used(&self, merchant: MerchantId, day: Day) -> UsedCount
        ensures { result ≡ used_in (requests_of merchant self.now.rows) day }
    {
        used_at(&self.used, &MerchantDay { merchant, day })
    }

    /// How many messages of all merchants count against the limit of a day.
    pub fn used_on(&self, day: Day) -> u64
        ensures { result ≡ used_in self.now.rows day }
    {
        self.rows.values().filter(|row| counts_on(row, day)).count() as u64
    }

    /// How many references the merchant has given.
    pub fn admitted(&self, merchant: MerchantId) -> AdmittedCount
        ensures { result ≡ admitted_in (requests_of merchant self.now.rows) }
    {
        admitted_at(&self.admitted, &merchant)
    }

    /// How many requests of a day are pending, of all merchants.
    pub fn pending(&self, day: Day) -> u64
        ensures { result ≡ count (λ row. is_pending row.status && (row.day == day)) self.now.rows }
    {
        self.rows
            .values()
            .filter(|row| is_pending_on(row, day))
            .count() as u64
    }

    /// How many requests wait for their issuer's answer, of all merchants and days.
    pub fn waiting_count(&self) -> u64
        ensures { result ≡ length (filter (λ row. is_pending row.status) self.now.rows) }
    {
        self.rows.values().filter(|row| is_waiting(row)).count() as u64
    }

    /// The merchant's approved holds, in the order in which they came.
    pub fn holds(&self, alloc: Global, merchant: MerchantId) -> Result<Vec<&Request>, AllocError>
        ensures { IfOk result (λ rows. map deref rows.items
            ≡ filter (λ row. is_authorization row.key.service && is_approved row.status)
            (requests_of merchant self.now.rows)) }
    {
        self.rows
            .values()
            .filter(|row| is_hold_of(row, merchant))
            .collect(alloc)
    }

    /// The pending requests of all merchants and days, in the order in which they came.
    pub fn waiting(&self, alloc: Global) -> Result<Vec<&Request>, AllocError>
        ensures { IfOk result (λ rows. map deref rows.items
            ≡ filter (λ row. is_pending row.status) self.now.rows) }
    {
        self.rows
            .values()
            .filter(|row| is_waiting(row))
            .collect(alloc)
    }

    /// The requests behind so many rows, in the order in which they came.
    pub fn behind(&self, alloc: Global, rows: u64) -> Result<Vec<&Request>, AllocError>
        ensures { IfOk result (λ those. map deref those.items ≡ drop rows self.now.rows) }
    {
        self.rows.values().skip(rows as usize).collect(alloc)
    }

    /// Makes room for one more, and a copy of it.
    pub fn reserve_for(&mut self, alloc: Global, row: &Request) -> Result<Request, AllocError>
        ensures rows { self.new.rows ≡ self.old.rows }
        ensures room { OnOk result (0 < self.new.room) }
        ensures copy { IfOk result (λ copy. copy ≡ row.now) }
    {
        self.rows.reserve(1)?;
        self.places.reserve(1)?;
        self.used.reserve(1)?;
        self.admitted.reserve(1)?;
        self.room = 1;
        row.copied(alloc)
    }

    /// One more request.
    pub fn push(&mut self, row: Request)
        requires room { 0 < self.old.room }
        requires new { IsNewRow self.old.rows row }
        ensures rows { self.new.rows ≡ self.old.rows ++ row ∷ [] }
        ensures room { self.old.room ≤ self.new.room + 1 }
    {
        let place = self.rows.len();
        let key = row.key;
        let merchant = key.merchant;
        put_place(&mut self.places, merchant, row.reference, place);
        let day = MerchantDay {
            merchant,
            day: row.day,
        };
        count_used(&mut self.used, day, row.admitted);
        count_admitted(&mut self.admitted, merchant, row.reference.is_some());
        put_request(&mut self.rows, key, row);
        self.room -= 1;
    }

    /// The request with this key was answered so.
    pub fn answer(
        &mut self,
        key: &RequestKey,
        status: Status,
        reply: Message,
        hold_end: Option<u64>,
    )
        ensures rows { self.new.rows
            ≡ with_changed key.now (answered_row status reply hold_end) self.old.rows }
        ensures room { self.new.room ≡ self.old.room }
    {
        answer_at(&mut self.rows, key, status, reply, hold_end);
    }

    /// The request with this key was followed, and this remains of it.
    pub fn follow(&mut self, key: &RequestKey, remains: Remains)
        ensures rows { self.new.rows ≡ with_changed key.now (followed_row remains) self.old.rows }
        ensures room { self.new.room ≡ self.old.room }
    {
        follow_at(&mut self.rows, key, remains);
    }
}

/// Whether a request waits for its issuer's answer.
fn is_waiting(row: &Request) -> bool
    ensures { result ≡ is_pending row.now.status }
{
    matches!(row.status, Status::Pending)
}

/// Whether a request counts against the limit of this day.
fn counts_on(row: &Request, day: Day) -> bool
    ensures { result ≡ (row.now.admitted && (row.now.day == day)) }
{
    row.admitted && row.day == day
}

/// Whether a request of this day is pending.
fn is_pending_on(row: &Request, day: Day) -> bool
    ensures { result ≡ (is_pending row.now.status && (row.now.day == day)) }
{
    is_waiting(row) && row.day == day
}

/// Whether it is an approved authorization of this merchant, which was neither completed nor undone.
fn is_hold_of(row: &Request, merchant: MerchantId) -> bool
    ensures { result ≡ (bytes_eq row.now.key.merchant merchant
        && (is_authorization row.now.key.service && is_approved row.now.status)) }
{
    row.key.merchant == merchant
        && matches!(row.key.service, Service::Authorization)
        && matches!(row.status, Status::Approved | Status::Lowered)
}

fn row_at(rows: &IndexMap<RequestKey, Request, RandomState>, place: usize) -> Option<&Request>
    ensures { option_copied result ≡ slice_get (values rows.now) place }
{
    match rows.get_index(place) {
        Some((_, row)) => Some(row),
        None => None,
    }
}

fn used_at(counts: &IndexMap<MerchantDay, UsedCount, RandomState>, day: &MerchantDay) -> UsedCount
    ensures { result ≡ count_at (get day_eq counts.now) day.now }
{
    if let Some(count) = counts.get(day) {
        return *count;
    }
    let Some(none) = UsedCount::from_number(0) else {
        unreachable!();
    };
    none
}

fn admitted_at(
    counts: &IndexMap<MerchantId, AdmittedCount, RandomState>,
    merchant: &MerchantId,
) -> AdmittedCount
    ensures { result ≡ count_at (get merchant_eq counts.now) merchant.now }
{
    if let Some(count) = counts.get(merchant) {
        return *count;
    }
    let Some(none) = AdmittedCount::from_number(0) else {
        unreachable!();
    };
    none
}

/// Counts one more of a merchant's day, if it counts.
fn count_used(
    counts: &mut IndexMap<MerchantDay, UsedCount, RandomState>,
    day: MerchantDay,
    counted: bool,
)
    requires room { 0 < spare counts.old }
    requires fits { counted ≡ true → is_used_count (1 + count_at (get day_eq counts.old) day)
        ≡ true }
    ensures counts { (k : MerchantDay) → count_at (get day_eq counts.new) k
        ≡ (if counted && day_eq day k then 1 + count_at (get day_eq counts.old) day
        else count_at (get day_eq counts.old) k) }
    ensures spare { spare counts.old ≤ spare counts.new + 1 }
{
    if counted {
        let count = used_at(counts, &day);
        let Some(more) = UsedCount::from_number(1 + count.number()) else {
            unreachable!();
        };
        put(counts, day, more);
    }
}

/// Counts one more of a merchant, if it counts.
fn count_admitted(
    counts: &mut IndexMap<MerchantId, AdmittedCount, RandomState>,
    merchant: MerchantId,
    counted: bool,
)
    requires room { 0 < spare counts.old }
    requires fits { counted ≡ true
        → is_admitted_count (1 + count_at (get merchant_eq counts.old) merchant) ≡ true }
    ensures counts { (m : List ℕ) → count_at (get merchant_eq counts.new) m
        ≡ (if counted && merchant_eq merchant m
        then 1 + count_at (get merchant_eq counts.old) merchant
        else count_at (get merchant_eq counts.old) m) }
    ensures spare { spare counts.old ≤ spare counts.new + 1 }
{
    if counted {
        let count = admitted_at(counts, &merchant);
        let Some(more) = AdmittedCount::from_number(1 + count.number()) else {
            unreachable!();
        };
        put(counts, merchant, more);
    }
}

fn put_request(rows: &mut IndexMap<RequestKey, Request, RandomState>, key: RequestKey, row: Request)
    requires room { 0 < spare rows.old }
    requires new { get key_eq rows.old key ≡ None }
    ensures entries { rows.new.entries ≡ rows.old.entries ++ (key, row) ∷ [] }
    ensures spare { spare rows.old ≤ spare rows.new + 1 }
{
    rows.insert(key, row).unwrap();
}

/// Puts the place of a request, if it has a reference.
fn put_place(
    places: &mut IndexMap<MerchantReference, usize, RandomState>,
    merchant: MerchantId,
    reference: Option<Reference>,
    place: usize,
)
    requires { 0 < spare places.old }
    ensures places { MatchOption reference (places.new.entries ≡ places.old.entries)
        (λ n. (r : MerchantReference) → get reference_eq places.new r
        ≡ (if reference_eq (record { merchant = merchant; reference = n }) r then Some place
        else get reference_eq places.old r)) }
    ensures spare { spare places.old ≤ spare places.new + 1 }
{
    if let Some(reference) = reference {
        put(
            places,
            MerchantReference {
                merchant,
                reference,
            },
            place,
        );
    }
}

fn answer_at(
    rows: &mut IndexMap<RequestKey, Request, RandomState>,
    key: &RequestKey,
    status: Status,
    reply: Message,
    hold_end: Option<u64>,
)
    ensures entries { rows.new.entries
        ≡ changed_at (key_eq key.now) (answered_row status reply hold_end) rows.old.entries }
    ensures unique { IsUnique key_eq rows.old }
    ensures spare { spare rows.new ≡ spare rows.old }
{
    if let Some(row) = rows.get_mut(key) {
        row.status = status;
        row.reply = reply;
        row.hold_end = hold_end;
    }
}

fn follow_at(
    rows: &mut IndexMap<RequestKey, Request, RandomState>,
    key: &RequestKey,
    remains: Remains,
)
    ensures entries { rows.new.entries
        ≡ changed_at (key_eq key.now) (followed_row remains) rows.old.entries }
    ensures unique { IsUnique key_eq rows.old }
    ensures spare { spare rows.new ≡ spare rows.old }
{
    if let Some(row) = rows.get_mut(key) {
        row.status = remains.status;
        row.amount = remains.amount;
    }
}
