//! What is recalled of a book's tables.

ghost use Rattle.std.specs.Prelude.{◌≡◌, ◌++◌, ◌∷◌, [], IfSome, List};
ghost use Rattle.acq_core.specs.declared.request.Request.{Request};
ghost use Rattle.acq_core.specs.Tables.{Tables, after, with_changed};
ghost use Rattle.acq_book.specs.Fits.{Fits};
ghost use Rattle.acq_recall.specs.Recalled.{Recalls};
ghost use Rattle.acq_recall.specs.Waiting.{HasNewReference, Restates};

mod looking;

use crate::bounded_map::BoundedMap;
use crate::counts::Counts;
use crate::enrolled_counts::EnrolledCounts;
use crate::waiting::Waiting;
use acq_core::{Change, Limit, Merchant, MerchantId, Request, RequestKey, Status};
use acq_lists::MerchantTerminal;
use card_no::Range;
use day_totals::Day;
use std::alloc::Global;
use std::hash::RandomState;

/// What is recalled of a book's tables. A change keeps it up to date.
#[derive(Drop)]
pub(crate) struct Recollection {
    pub(crate) row: Option<(Limit, Day)>,
    pub(crate) merchants: BoundedMap<MerchantId, Merchant>,
    pub(crate) terminals: BoundedMap<MerchantTerminal, ()>,
    /// By the number of a prefix that a range holds.
    pub(crate) ranges: BoundedMap<u32, Range>,
    pub(crate) enrolled_counts: EnrolledCounts,
    pub(crate) counts: Counts,
    pub(crate) waiting: Waiting,
}

impl Recollection {
    /// Nothing is recalled. It takes no memory.
    pub fn nothing(alloc: Global, keys: RandomState) -> Recollection
        ensures { (t : Tables) → Recalls result t }
    {
        Recollection {
            row: None,
            merchants: BoundedMap::new(alloc, keys),
            terminals: BoundedMap::new(alloc, keys),
            ranges: BoundedMap::new(alloc, keys),
            enrolled_counts: EnrolledCounts::nothing(),
            counts: Counts::nothing(alloc, keys),
            waiting: Waiting::nothing(alloc),
        }
    }

    /// Lets all go.
    pub fn forget(&mut self)
        ensures { (t : Tables) → Recalls self.new t }
    {
        self.row = None;
        self.merchants.clear();
        self.terminals.clear();
        self.ranges.clear();
        self.enrolled_counts = EnrolledCounts::nothing();
        self.counts.forget();
        self.waiting.forget();
    }

    /// Follows a change that was made.
    pub fn follow(&mut self, alloc: Global, change: &Change)
        ensures { (t : Tables) → Fits t change.now → Recalls self.old t
            → Recalls self.new (after t change.now) }
    {
        self.make_room();
        match change {
            Change::AddMerchant(_) => {}
            Change::AddTerminal(_) => self.enrolled_counts.terminals = None,
            Change::AddRange(_) => self.forget_ranges(),
            Change::DropRange { .. } => self.forget_ranges(),
            Change::SetDay(day) => self.begin_day(*day),
            Change::AddRequest(request) => self.add(alloc, request),
            Change::Answered { key, status, .. } => self.restate(key, *status),
            Change::Follow {
                request,
                original,
                remains,
                ..
            } => {
                self.restate(original, remains.status);
                self.add(alloc, request);
            }
            Change::Reconciled { request, .. } => self.add(alloc, request),
        }
    }

    /// Makes room for what comes, where there is none.
    fn make_room(&mut self)
        ensures { (t : Tables) → Recalls self.old t → Recalls self.new t }
    {
        self.merchants.make_room();
        self.terminals.make_room();
        self.ranges.make_room();
        self.counts.make_room();
    }

    /// Other ranges are there than before.
    fn forget_ranges(&mut self)
        ensures { (t : Tables) (listed : List Range) → Recalls self.old t
            → Recalls self.new (record t { ranges = listed }) }
    {
        self.ranges.clear();
        self.enrolled_counts.ranges = None;
    }

    /// Another business day begins.
    fn begin_day(&mut self, day: Day)
        ensures { (t : Tables) → Recalls self.old t
            → Recalls self.new (record t { day = day }) }
    {
        self.row = day_begun(self.row, day);
        self.counts.forget_days();
    }

    /// One more request comes, whose reference is new.
    fn add(&mut self, alloc: Global, request: &Request)
        ensures { (t : Tables) → HasNewReference t.requests request.now → Recalls self.old t
            → Recalls self.new (record t { requests = t.requests ++ request.now ∷ [] }) }
    {
        self.counts.add(request);
        self.waiting.add(alloc, request);
    }

    /// The request with this key has this status now.
    fn restate(&mut self, key: &RequestKey, status: Status)
        ensures { (t : Tables) (change : Request → Request) → Restates status change
            → Recalls self.old t
            → Recalls self.new (record t { requests = with_changed key.now change t.requests }) }
    {
        self.waiting.restate(key, status);
    }
}

/// The book's row, once another business day has begun.
fn day_begun(row: Option<(Limit, Day)>, day: Day) -> Option<(Limit, Day)>
    ensures { (t : Tables) → IfSome row (λ row. row ≡ (t.limit, t.day))
        → IfSome result (λ row. row ≡ (t.limit, day)) }
{
    let (limit, _) = row?;
    Some((limit, day))
}
