//! What a book recalls of its tables.

ghost use Rattle.std.specs.Prelude.{◌≡◌, ◌++◌, ◌∷◌, [], List, Option, IfOk, IfSome, None};
ghost use Rattle.std.specs.Prelude.{true, false};
ghost use Rattle.acq_core.specs.declared.posting.Posting.{Posting};
ghost use Rattle.acq_core.specs.declared.request.Request.{Request};
ghost use Rattle.acq_core.specs.Pasts.{HasPast};
ghost use Rattle.acq_sql_changes.specs.Changed.{with_posted};
ghost use Rattle.acq_core.specs.Tables.{Tables, after};
ghost use Rattle.acq_book.specs.Lookups.{used_on_at, waiting_count_at};
ghost use Rattle.acq_sql.specs.Memos.{CountsUsed, HasRow, Recalls, nothing_recalled};

mod may_wait;
mod used_on;

use acq_book::BookFault;
use acq_core::{Change, Limit, Request};
use day_totals::Day;
pub use may_wait::MayWait;
pub use used_on::UsedOn;

/// What a book recalls of its tables since it looked: its own row, which each event needs, and what
/// a status needs, so that one that is asked for each second doesn't look at all requests each
/// time. A change keeps it up to date, a cutover too.
#[derive(Clone, Copy)]
pub struct Memo {
    pub(crate) row: Option<(Limit, Day)>,
    pub(crate) waiting: MayWait,
    pub(crate) used: Option<UsedOn>,
}

impl Memo {
    /// Nothing is recalled.
    pub(crate) fn nothing() -> Memo
        ensures { result ≡ nothing_recalled }
    {
        Memo {
            row: None,
            waiting: MayWait::Any,
            used: None,
        }
    }

    /// What is recalled after a change. Of one that failed it isn't known what it left.
    pub(crate) fn after(self, change: &Change, is_made: bool) -> Memo
        ensures made { is_made ≡ true → (t : Tables) → HasPast t → Recalls self t
            → Recalls result (after t change.now) }
        ensures failed { is_made ≡ false → result ≡ nothing_recalled }
    {
        if !is_made {
            return Memo::nothing();
        }
        Memo {
            row: row_after(self.row, change),
            waiting: self.waiting.after(change),
            used: used_after(self.used, self.row, change),
        }
    }

    /// What is recalled once a request is recorded, with the posting that it makes, if any.
    pub(crate) fn with_request(self, request: &Request, is_made: bool) -> Memo
        ensures made { is_made ≡ true → (t : Tables) (posting : Option Posting) → Recalls self t
            → Recalls result (with_posted request.now posting t) }
        ensures failed { is_made ≡ false → result ≡ nothing_recalled }
    {
        if !is_made {
            return Memo::nothing();
        }
        Memo {
            row: self.row,
            waiting: self.waiting.with(request),
            used: used_with(self.used, request),
        }
    }

    /// What is recalled after a group, if it was kept. Of one that wasn't nothing is.
    pub(crate) fn if_kept(self, is_kept: bool) -> Memo
        ensures kept { is_kept ≡ true → result ≡ self }
        ensures not { is_kept ≡ false → result ≡ nothing_recalled }
    {
        if is_kept { self } else { Memo::nothing() }
    }

    /// How many messages of a merchant a day admits, and the business day, if they are known.
    pub(crate) fn row(&self) -> Option<(Limit, Day)>
        ensures { result ≡ self.now.row }
    {
        self.row
    }

    /// Notes these, as a look told them.
    pub(crate) fn note_row(&mut self, told: &Result<(Limit, Day), BookFault>)
        ensures learns { (t : Tables) → IfOk told.now (λ row. row ≡ (t.limit, t.day))
            → Recalls self.old t → Recalls self.new t }
        ensures keeps { self.old.row ≡ None → (t : Tables) → Recalls self.new t
            → Recalls self.old t }
    {
        if let Ok(row) = told {
            self.row = Some(*row);
        }
    }

    /// Whether it is known that no request waits.
    #[tactic(auto, using(crate::proofs::Memos::none_counted))]
    pub(crate) fn none_waits(&self) -> bool
        ensures { result ≡ true → (t : Tables) → Recalls self.now t → waiting_count_at t ≡ 0 }
    {
        matches!(self.waiting, MayWait::None)
    }

    /// How many messages count on a day, if it is known.
    pub(crate) fn used_on(&self, day: Day) -> Option<u64>
        ensures { IfSome result (λ n. (t : Tables) → Recalls self.now t → n ≡ used_on_at t day) }
    {
        match self.used {
            Some(used) if used.day == day => Some(used.count),
            _ => None,
        }
    }

    /// Notes how many requests wait, as a look told it: that none does is recalled.
    #[tactic(auto, using(crate::proofs::Memos::none_found, crate::proofs::Memos::none_weaker))]
    pub(crate) fn note_waiting(&mut self, told: &Result<u64, BookFault>)
        ensures learns { (t : Tables) → IfOk told.now (λ n. n ≡ waiting_count_at t)
            → Recalls self.old t → Recalls self.new t }
        ensures keeps { (t : Tables) → Recalls self.new t → Recalls self.old t }
    {
        if matches!(told, Ok(0)) {
            self.waiting = MayWait::None;
        }
    }

    /// Notes how many messages count on a day, as a look told it, unless a day's are recalled.
    pub(crate) fn note_used(&mut self, day: Day, told: &Result<u64, BookFault>)
        ensures learns { (t : Tables) → IfOk told.now (λ n. n ≡ used_on_at t day)
            → Recalls self.old t → Recalls self.new t }
        ensures keeps { (t : Tables) → Recalls self.new t → Recalls self.old t }
    {
        if self.used.is_some() {
            return;
        }
        if let Ok(count) = told {
            self.used = Some(UsedOn { day, count: *count });
        }
    }
}

/// What is recalled of the book's row after a change.
fn row_after(row: Option<(Limit, Day)>, change: &Change) -> Option<(Limit, Day)>
    ensures { (t : Tables) → HasRow row t → HasRow result (after t change.now) }
{
    let (limit, day) = row?;
    match change {
        Change::SetDay(next) => Some((limit, *next)),
        _ => Some((limit, day)),
    }
}

/// What is recalled of a day after a change, over the book's row as it was before.
fn used_after(used: Option<UsedOn>, row: Option<(Limit, Day)>, change: &Change) -> Option<UsedOn>
    ensures { (t : Tables) → HasPast t → HasRow row t → CountsUsed used t.requests
        → CountsUsed result (after t change.now).requests }
{
    match change {
        Change::SetDay(next) => none_used_yet(row, *next),
        _ => used?.after(change),
    }
}

/// What is known of a day that is still to come: none counts on it, since no request is of a later
/// day than the business day.
#[tactic(auto, using(crate::proofs::Memos::none_used_later))]
fn none_used_yet(row: Option<(Limit, Day)>, next: Day) -> Option<UsedOn>
    ensures { (t : Tables) → HasPast t → HasRow row t → CountsUsed result t.requests }
{
    let (_, today) = row?;
    if next <= today {
        return None;
    }
    Some(UsedOn {
        day: next,
        count: 0,
    })
}

/// What is recalled of a day with one more request.
fn used_with(used: Option<UsedOn>, request: &Request) -> Option<UsedOn>
    ensures { (rows : List Request) → CountsUsed used rows
        → CountsUsed result (rows ++ request.now ∷ []) }
{
    used?.with(request)
}
