//! Requests that wait for their issuer's answer.

ghost use Rattle.std.specs.Prelude.{◌≡◌, ◌++◌, ◌∷◌, [], List, Some, IfSome, false, true};
ghost use Rattle.std.specs.Prelude.{filter, not, ◌↔◌, ◌==◌, ◌+◌, ◌≤◌, length};
ghost use Rattle.acq_message.specs.Elements.{same_key};
ghost use Rattle.std.specs.Option.{option_copied};
ghost use Rattle.acq_core.specs.declared.request.Request.{Request};
ghost use Rattle.acq_core.specs.Tables.{count, is_pending, with_changed};
ghost use Rattle.acq_book.specs.Visits.{Saw, SawAll};
ghost use Rattle.acq_recall.specs.Waiting.{HasNewReference, IsBlank, RecallsWaiting};
ghost use Rattle.acq_recall.specs.Waiting.{Restates, referred_among};

use acq_book::Visit;
use acq_core::{MerchantId, Reference, Request, RequestKey, Status};
use day_totals::Day;
use std::alloc::Global;

/// How many are kept at most. Each is looked at for an answer.
pub(crate) const MOST_WAITING: usize = 1024;

/// Requests that wait for their issuer's answer, in the order in which they came.
#[derive(Drop)]
pub(crate) struct Waiting {
    /// Those that waited when all were learned.
    earlier: Vec<Request>,
    /// Those that came since.
    rows: Vec<Request>,
    /// Whether no other waits.
    is_all: bool,
    /// Whether it isn't worth while to learn all: they were too many.
    is_tried: bool,
}

impl Waiting {
    /// None is known, and others may wait. It takes no memory.
    pub fn nothing(alloc: Global) -> Waiting
        ensures { (rows : List Request) → RecallsWaiting result rows }
    {
        Waiting {
            earlier: Vec::new(alloc),
            rows: Vec::new(alloc),
            is_all: false,
            is_tried: false,
        }
    }

    /// The one that has this reference of a merchant, if it is known.
    pub fn referred(&self, merchant: MerchantId, reference: Reference) -> Option<&Request>
        ensures { (rows : List Request) → RecallsWaiting self.now rows
            → IfSome (option_copied result)
            (λ row. referred_among rows merchant reference ≡ Some row) }
    {
        for row in &self.rows {
            if is_referred(row, merchant, reference) {
                return Some(row);
            }
        }
        None
    }

    /// One more request comes, whose reference is new.
    pub fn add(&mut self, alloc: Global, request: &Request)
        ensures { (rows : List Request) → HasNewReference rows request.now
            → RecallsWaiting self.old rows
            → RecallsWaiting self.new (rows ++ request.now ∷ []) }
    {
        if !is_waiting(request.status) {
            return;
        }
        if !keep_copy(&mut self.rows, alloc, request) {
            self.is_all = false;
        }
    }

    /// The request with this key has this status now.
    pub fn restate(&mut self, key: &RequestKey, status: Status)
        ensures { (rows : List Request) (change : Request → Request) → Restates status change
            → RecallsWaiting self.old rows
            → RecallsWaiting self.new (with_changed key.now change rows) }
    {
        drop_with_key(&mut self.earlier, key);
        drop_with_key(&mut self.rows, key);
        if is_waiting(status) {
            self.is_all = false;
        }
    }

    /// Lets all go.
    pub fn forget(&mut self)
        ensures { (rows : List Request) → RecallsWaiting self.new rows }
    {
        self.earlier.clear();
        self.rows.clear();
        self.is_all = false;
        self.is_tried = false;
    }

    /// Whether all that wait may be learned: none is known, and it wasn't tried in vain.
    pub fn may_be_learned(&self) -> bool
        ensures { result ≡ true → IsBlank self.now }
    {
        self.earlier.is_empty() && self.rows.is_empty() && !self.is_all && !self.is_tried
    }

    /// Learns all that wait, of which none is known yet.
    pub fn learn(&mut self, all: Vec<Request>)
        requires blank { IsBlank self.old }
        ensures learns { (rows : List Request)
            → all.items ≡ filter (λ row. is_pending row.status) rows
            → RecallsWaiting self.new rows }
        ensures keeps { (rows : List Request) → RecallsWaiting self.old rows }
    {
        self.earlier = all;
        self.is_all = true;
    }

    /// They are too many to be learned.
    pub fn leave(&mut self)
        ensures { (rows : List Request) → RecallsWaiting self.old rows
            ↔ RecallsWaiting self.new rows }
    {
        self.is_tried = true;
    }

    /// Whether all that wait are known.
    pub fn are_known(&self) -> bool
        ensures { result ≡ self.now.is_all }
    {
        self.is_all
    }

    /// How many wait, of those that are known.
    pub fn count(&self) -> u64
        ensures { result ≡ length self.now.earlier.items + length self.now.rows.items }
    {
        (self.earlier.len() + self.rows.len()) as u64
    }

    /// How many of a day wait, of those that are known.
    pub fn count_of(&self, day: Day) -> u64
        ensures { result
            ≡ count (λ row. row.day == day) self.now.earlier.items
            + count (λ row. row.day == day) self.now.rows.items }
    {
        count_of(self.earlier.as_slice(), day) + count_of(self.rows.as_slice(), day)
    }

    /// Hands over those that are known.
    pub fn show<V: Visit<Request>>(&self, visitor: &mut V)
        ensures { SawAll V.sees (self.now.earlier.items ++ self.now.rows.items)
            visitor.old visitor.new }
    {
        if show_each(self.earlier.as_slice(), visitor) {
            show_each(self.rows.as_slice(), visitor);
        }
    }
}

/// Hands over rows, and returns whether more is wanted.
fn show_each<V: Visit<Request>>(rows: &[Request], visitor: &mut V) -> bool
    ensures more { result ≡ true → Saw V.sees rows.now visitor.old visitor.new }
    ensures done { result ≡ false → (behind : List Request)
        → SawAll V.sees (rows.now ++ behind) visitor.old visitor.new }
{
    for row in rows {
        if !visitor.row(row) {
            return false;
        }
    }
    true
}

/// How many requests are of a day.
fn count_of(rows: &[Request], day: Day) -> u64
    ensures count { result ≡ count (λ row. row.day == day) rows.now }
    ensures bound { result ≤ length rows.now }
{
    rows.iter().filter(|row| row.day == day).count() as u64
}

/// Whether a request has this reference of a merchant.
fn is_referred(row: &Request, merchant: MerchantId, reference: Reference) -> bool
    ensures { result ≡ true
        → (row.now.key.merchant ≡ merchant) × (row.now.reference ≡ Some reference) }
{
    row.key.merchant == merchant && row.reference == Some(reference)
}

/// Puts a copy of a request behind others, and returns whether there was room and memory for it.
fn keep_copy(rows: &mut Vec<Request>, alloc: Global, request: &Request) -> bool
    ensures kept { result ≡ true → rows.new.items ≡ rows.old.items ++ request.now ∷ [] }
    ensures not { result ≡ false → rows.new.items ≡ rows.old.items }
{
    if rows.len() >= MOST_WAITING {
        return false;
    }
    match request.copied(alloc) {
        Ok(copy) => rows.push(copy).is_ok(),
        Err(_) => false,
    }
}

/// Lets go the requests with a key.
fn drop_with_key(rows: &mut Vec<Request>, key: &RequestKey)
    ensures { rows.new.items
        ≡ filter (λ row. not (same_key row.key key.now)) rows.old.items }
{
    rows.retain(|row| *key != row.key);
}

/// Whether a request with this status waits.
fn is_waiting(status: Status) -> bool
    ensures { result ≡ is_pending status }
{
    matches!(status, Status::Pending)
}
