//! What keeps the tables.

ghost use Rattle.std.specs.Prelude.{◌≡◌, ℕ, is_ok};
ghost use Rattle.acq_core.specs.Tables.{Tables, after};
ghost use Rattle.acq_core.specs.Pasts.{HasPast};
ghost use Rattle.acq_book.specs.Fits.{Fits, HasItsRequest};
ghost use Rattle.acq_book.specs.Lookups.{merchant_at, has_terminal_at, terminal_count_at};
ghost use Rattle.acq_book.specs.Lookups.{range_at, overlapping_at, range_count_at};
ghost use Rattle.acq_book.specs.Lookups.{request_at, referred_at, admitted_at, used_at, totals_at};
ghost use Rattle.acq_book.specs.Lookups.{pending_at, used_on_at, waiting_count_at};
ghost use Rattle.acq_book.specs.Lookups.{last_reconciliation_at};
ghost use Rattle.acq_book.specs.Lookups.{postings_at, postings_above_at, postings_behind_at};
ghost use Rattle.acq_book.specs.Lookups.{merchants_at, terminals_at, ranges_at};
ghost use Rattle.acq_book.specs.Lookups.{holds_at, waiting_at, requests_behind_at};
ghost use Rattle.acq_book.specs.Looked.{IsLooked};
ghost use Rattle.acq_book.specs.Groups.{BeginsBy, GivesWithinBy, IsLive, KeepsBy, MakesWithinBy};
ghost use Rattle.acq_book.specs.Groups.{ReturnsBy};
ghost use Rattle.acq_book.specs.Promise.{BlamesStore, CountsFault, GivesBy, MakesBy, WalksBy};

use crate::book_fault::BookFault;
use crate::visit::Visit;
use acq_core::{
    AdmittedCount, Change, Limit, Looked, Merchant, MerchantId, Posting, Reconciliation, Reference,
    Request, RequestKey, Terminal, TerminalId, UsedCount, Wanted,
};
use card_no::{Prefix, Range};
use day_totals::{Day, Totals};

/// What keeps the tables.
///
/// A look-up gives what its definition says of the tables, and changes nothing. `look_up` answers
/// all that an event asks for at once; the calls behind `apply` ask it for one part. What is said
/// of the tables is said of an open book, whose store gave back what was written. Any call may
/// answer that memory ran out, or that the store failed.
///
/// Changes may be made in a group, which is kept whole or not at all: `begin`, then `look_up` and
/// `apply`, then `keep`. Within it look-ups see what it changed, and a stop leaves nothing of it.
/// After a call in it that failed, and after whatever else is in its way, `give_up` leads back to
/// the tables at which it began.
pub trait Book {
    /// The tables.
    ghost tables: { Self → Tables };

    /// The store gave back what was written, and nothing but this book has written it.
    ghost is_honest: { Self → Type 0 };

    /// The store is honest, no fault has shut it, and no group is begun.
    ghost is_open: { Self → Type 0 };

    /// So it is, but a group is begun: over these tables, when the store had met so many faults.
    ghost is_within: { Self → Tables → ℕ → Type 0 };

    /// A group that began so can be given up, also since a call in it failed.
    ghost can_return: { Self → Tables → ℕ → Type 0 };

    /// The tables that a stop may leave.
    ghost may_leave: { Self → Tables → Type 0 };

    /// Whatever a stop may leave stores the tables that it reads as, as a book does that is opened.
    ghost leaves_books: { Self → Type 0 };

    /// How many calls of the store have failed.
    ghost failures: { Self → ℕ };

    /// How many faults the store itself has met, as it counts them.
    ghost store_faults: { Self → ℕ };

    /// Nothing but memory and a fault of the store itself is in the way of its calls.
    ghost has_room: { Self → Type 0 };

    /// Looks up what is wanted: each part of the answer is what the tables have, within a group
    /// those that it shows.
    fn look_up(&mut self, wanted: &Wanted) -> Result<Looked, BookFault>
        ensures gives { GivesBy tables is_honest is_open may_leave leaves_books
            failures store_faults has_room self.old self.new result
            (IsLooked (tables self.old) wanted.now) }
        ensures within { GivesWithinBy tables is_honest is_within can_return
            self.old self.new result (IsLooked (tables self.old) wanted.now) };

    /// How many terminals there are, of all merchants.
    fn terminal_count(&mut self) -> Result<u64, BookFault>
        ensures { GivesBy tables is_honest is_open may_leave leaves_books failures store_faults
            has_room self.old self.new result
            (λ n. n ≡ terminal_count_at (tables self.old)) };

    /// How many ranges there are.
    fn range_count(&mut self) -> Result<u64, BookFault>
        ensures { GivesBy tables is_honest is_open may_leave leaves_books failures store_faults
            has_room self.old self.new result
            (λ n. n ≡ range_count_at (tables self.old)) };

    /// How many messages of all merchants count against the limit of a day.
    fn used_on(&mut self, day: Day) -> Result<u64, BookFault>
        ensures { GivesBy tables is_honest is_open may_leave leaves_books failures store_faults
            has_room self.old self.new result
            (λ n. n ≡ used_on_at (tables self.old) day) };

    /// How many requests of a day are pending, of all merchants.
    fn pending(&mut self, day: Day) -> Result<u64, BookFault>
        ensures { GivesBy tables is_honest is_open may_leave leaves_books failures store_faults
            has_room self.old self.new result
            (λ n. n ≡ pending_at (tables self.old) day) };

    /// How many requests wait for their issuer's answer, of all merchants and days.
    fn waiting_count(&mut self) -> Result<u64, BookFault>
        ensures { GivesBy tables is_honest is_open may_leave leaves_books failures store_faults
            has_room self.old self.new result
            (λ n. n ≡ waiting_count_at (tables self.old)) };

    /// The merchant's last reconciliation of a day.
    fn last_reconciliation(
        &mut self,
        merchant: MerchantId,
        day: Day,
    ) -> Result<Option<Reconciliation>, BookFault>
        ensures { GivesBy tables is_honest is_open may_leave leaves_books failures store_faults
            has_room self.old self.new result
            (λ row. row ≡ last_reconciliation_at (tables self.old) merchant day) };

    /// Hands over the postings of a day, each with its number, in order of merchant and number.
    fn walk_postings<V: Visit<(u64, Posting)>>(
        &mut self,
        day: Day,
        visitor: &mut V,
    ) -> Result<(), BookFault>
        ensures { WalksBy tables is_honest is_open may_leave leaves_books failures store_faults
            has_room self.old self.new result
            V.sees (postings_at (tables self.old) day) visitor.old visitor.new };

    /// Hands over those of a merchant and day with numbers above one, in order of number.
    fn walk_postings_above<V: Visit<(u64, Posting)>>(
        &mut self,
        merchant: MerchantId,
        day: Day,
        number: u64,
        visitor: &mut V,
    ) -> Result<(), BookFault>
        ensures { WalksBy tables is_honest is_open may_leave leaves_books failures store_faults
            has_room self.old self.new result
            V.sees (postings_above_at (tables self.old) merchant day number)
            visitor.old visitor.new };

    /// Hands over those of a day of the merchants whose names are behind one, in order of merchant
    /// and number.
    fn walk_postings_behind<V: Visit<(u64, Posting)>>(
        &mut self,
        merchant: MerchantId,
        day: Day,
        visitor: &mut V,
    ) -> Result<(), BookFault>
        ensures { WalksBy tables is_honest is_open may_leave leaves_books failures store_faults
            has_room self.old self.new result
            V.sees (postings_behind_at (tables self.old) merchant day) visitor.old visitor.new };

    /// Hands over the merchants, in order of their names.
    fn walk_merchants<V: Visit<Merchant>>(&mut self, visitor: &mut V) -> Result<(), BookFault>
        ensures { WalksBy tables is_honest is_open may_leave leaves_books failures store_faults
            has_room self.old self.new result
            V.sees (merchants_at (tables self.old)) visitor.old visitor.new };

    /// Hands over the terminals of all merchants, in order of merchant and name.
    fn walk_terminals<V: Visit<Terminal>>(&mut self, visitor: &mut V) -> Result<(), BookFault>
        ensures { WalksBy tables is_honest is_open may_leave leaves_books failures store_faults
            has_room self.old self.new result
            V.sees (terminals_at (tables self.old)) visitor.old visitor.new };

    /// Hands over the ranges, in order of low.
    fn walk_ranges<V: Visit<Range>>(&mut self, visitor: &mut V) -> Result<(), BookFault>
        ensures { WalksBy tables is_honest is_open may_leave leaves_books failures store_faults
            has_room self.old self.new result
            V.sees (ranges_at (tables self.old)) visitor.old visitor.new };

    /// Hands over a merchant's approved holds, which are neither completed nor reversed, in order
    /// of reference.
    fn walk_holds<V: Visit<Request>>(
        &mut self,
        merchant: MerchantId,
        visitor: &mut V,
    ) -> Result<(), BookFault>
        ensures { WalksBy tables is_honest is_open may_leave leaves_books failures store_faults
            has_room self.old self.new result
            V.sees (holds_at (tables self.old) merchant) visitor.old visitor.new };

    /// Hands over the requests of all merchants and days that wait for their issuer's answer, in
    /// the order in which they came.
    fn walk_pending<V: Visit<Request>>(&mut self, visitor: &mut V) -> Result<(), BookFault>
        ensures { WalksBy tables is_honest is_open may_leave leaves_books failures store_faults
            has_room self.old self.new result
            V.sees (waiting_at (tables self.old)) visitor.old visitor.new };

    /// Hands over the requests behind so many rows, in the order in which they came.
    fn walk_requests_behind<V: Visit<Request>>(
        &mut self,
        rows: u64,
        visitor: &mut V,
    ) -> Result<(), BookFault>
        ensures { WalksBy tables is_honest is_open may_leave leaves_books failures store_faults
            has_room self.old self.new result
            V.sees (requests_behind_at (tables self.old) rows) visitor.old visitor.new };

    /// Makes all of a change, or none of it; within a group it is made with the group. The change
    /// fits: its keys are new, and there is room for it; and it leads to tables that events lead
    /// to.
    fn apply(&mut self, change: &Change) -> Result<(), BookFault>
        requires fits { IsLive is_open is_within self.old → Fits (tables self.old) change.now }
        requires past { IsLive is_open is_within self.old
            → HasPast (after (tables self.old) change.now) }
        ensures makes { MakesBy tables is_honest is_open may_leave leaves_books
            failures store_faults self.old self.new
            (is_ok result) (after (tables self.old) change.now) }
        ensures within { MakesWithinBy tables is_honest is_within can_return may_leave leaves_books
            self.old self.new (is_ok result) (after (tables self.old) change.now) }
        ensures store { CountsFault result (failures self.old) (failures self.new) }
        ensures blames { is_honest self.new → IsLive is_open is_within self.old → has_room self.old
            → HasItsRequest (tables self.old) change.now
            → BlamesStore result (store_faults self.old) (store_faults self.new) };

    /// Begins a group.
    fn begin(&mut self) -> Result<(), BookFault>
        ensures begins { BeginsBy tables is_honest is_open is_within may_leave leaves_books
            failures store_faults self.old self.new (is_ok result) }
        ensures store { CountsFault result (failures self.old) (failures self.new) }
        ensures blames { is_honest self.new → is_open self.old
            → BlamesStore result (store_faults self.old) (store_faults self.new) };

    /// Keeps the group, whole. If it can't be kept, it is given up.
    fn keep(&mut self) -> Result<(), BookFault>
        ensures keeps { KeepsBy tables is_honest is_open is_within may_leave leaves_books
            failures store_faults self.old self.new (is_ok result) }
        ensures store { CountsFault result (failures self.old) (failures self.new) }
        ensures blames { (began : Tables) (faults : ℕ) → is_honest self.new
            → is_within self.old began faults
            → BlamesStore result (store_faults self.old) (store_faults self.new) };

    /// Gives up the group, and leads back to the tables at which it began.
    fn give_up(&mut self)
        ensures { ReturnsBy tables is_honest is_open can_return may_leave leaves_books
            failures store_faults self.old self.new };

    /// How many messages of a merchant a day admits.
    fn limit(&mut self) -> Result<Limit, BookFault>
        ensures { GivesBy tables is_honest is_open may_leave leaves_books failures store_faults
            has_room self.old self.new result
            (λ n. n ≡ (tables self.old).limit) }
    {
        let wanted = Wanted::nothing();
        let looked = self.look_up(&wanted)?;
        let found = looked.limit;
        drop(looked);
        Ok(found)
    }

    /// The business day.
    fn day(&mut self) -> Result<Day, BookFault>
        ensures { GivesBy tables is_honest is_open may_leave leaves_books failures store_faults
            has_room self.old self.new result
            (λ day. day ≡ (tables self.old).day) }
    {
        let wanted = Wanted::nothing();
        let looked = self.look_up(&wanted)?;
        let found = looked.today;
        drop(looked);
        Ok(found)
    }

    /// The merchant with this name.
    fn merchant(&mut self, id: MerchantId) -> Result<Option<Merchant>, BookFault>
        ensures { GivesBy tables is_honest is_open may_leave leaves_books failures store_faults
            has_room self.old self.new result
            (λ row. row ≡ merchant_at (tables self.old) id) }
    {
        let wanted = Wanted {
            merchant: Some(id),
            ..Wanted::nothing()
        };
        let looked = self.look_up(&wanted)?;
        let found = looked.merchant;
        drop(looked);
        Ok(found)
    }

    /// Whether the merchant has this terminal.
    fn has_terminal(&mut self, merchant: MerchantId, id: TerminalId) -> Result<bool, BookFault>
        ensures { GivesBy tables is_honest is_open may_leave leaves_books failures store_faults
            has_room self.old self.new result
            (λ has. has ≡ has_terminal_at (tables self.old) merchant id) }
    {
        let wanted = Wanted {
            merchant: Some(merchant),
            terminal: Some(id),
            ..Wanted::nothing()
        };
        let looked = self.look_up(&wanted)?;
        let found = looked.has_terminal;
        drop(looked);
        Ok(found)
    }

    /// The range that holds a prefix.
    fn range(&mut self, prefix: Prefix) -> Result<Option<Range>, BookFault>
        ensures { GivesBy tables is_honest is_open may_leave leaves_books failures store_faults
            has_room self.old self.new result
            (λ range. range ≡ range_at (tables self.old) prefix) }
    {
        let wanted = Wanted {
            prefix: Some(prefix),
            ..Wanted::nothing()
        };
        let mut looked = self.look_up(&wanted)?;
        let found = looked.range.take();
        drop(looked);
        Ok(found)
    }

    /// Of the ranges that overlap these ends, the one of least low.
    fn overlapping(&mut self, low: u32, high: u32) -> Result<Option<Range>, BookFault>
        ensures { GivesBy tables is_honest is_open may_leave leaves_books failures store_faults
            has_room self.old self.new result
            (λ range. range ≡ overlapping_at (tables self.old) low high) }
    {
        let wanted = Wanted {
            bounds: Some((low, high)),
            ..Wanted::nothing()
        };
        let mut looked = self.look_up(&wanted)?;
        let found = looked.overlapped.take();
        drop(looked);
        Ok(found)
    }

    /// The request with this key.
    fn request(&mut self, key: RequestKey) -> Result<Option<Request>, BookFault>
        ensures { GivesBy tables is_honest is_open may_leave leaves_books failures store_faults
            has_room self.old self.new result
            (λ row. row ≡ request_at (tables self.old) key) }
    {
        let wanted = Wanted {
            key: Some(key),
            ..Wanted::nothing()
        };
        let mut looked = self.look_up(&wanted)?;
        let found = looked.recorded.take();
        drop(looked);
        Ok(found)
    }

    /// The merchant's request with this reference.
    fn by_reference(
        &mut self,
        merchant: MerchantId,
        reference: Reference,
    ) -> Result<Option<Request>, BookFault>
        ensures { GivesBy tables is_honest is_open may_leave leaves_books failures store_faults
            has_room self.old self.new result
            (λ row. row ≡ referred_at (tables self.old) merchant reference) }
    {
        let wanted = Wanted {
            merchant: Some(merchant),
            reference: Some(reference),
            ..Wanted::nothing()
        };
        let mut looked = self.look_up(&wanted)?;
        let found = looked.referred.take();
        drop(looked);
        Ok(found)
    }

    /// How many of the merchant's requests were admitted: so many references it has given.
    fn admitted(&mut self, merchant: MerchantId) -> Result<AdmittedCount, BookFault>
        ensures { GivesBy tables is_honest is_open may_leave leaves_books failures store_faults
            has_room self.old self.new result
            (λ n. n ≡ admitted_at (tables self.old) merchant) }
    {
        let wanted = Wanted {
            merchant: Some(merchant),
            admitted: true,
            ..Wanted::nothing()
        };
        let looked = self.look_up(&wanted)?;
        let found = looked.admitted;
        drop(looked);
        Ok(found)
    }

    /// How many of the merchant's messages count against the limit of a day.
    fn used(&mut self, merchant: MerchantId, day: Day) -> Result<UsedCount, BookFault>
        ensures { GivesBy tables is_honest is_open may_leave leaves_books failures store_faults
            has_room self.old self.new result
            (λ n. n ≡ used_at (tables self.old) merchant day) }
    {
        let wanted = Wanted {
            merchant: Some(merchant),
            used_day: Some(day),
            ..Wanted::nothing()
        };
        let looked = self.look_up(&wanted)?;
        let found = looked.used;
        drop(looked);
        Ok(found)
    }

    /// The merchant's totals of a day.
    fn totals(&mut self, merchant: MerchantId, day: Day) -> Result<Totals, BookFault>
        ensures { GivesBy tables is_honest is_open may_leave leaves_books failures store_faults
            has_room self.old self.new result
            (λ totals. totals ≡ totals_at (tables self.old) merchant day) }
    {
        let wanted = Wanted {
            merchant: Some(merchant),
            totals_day: Some(day),
            ..Wanted::nothing()
        };
        let looked = self.look_up(&wanted)?;
        let found = looked.totals;
        drop(looked);
        Ok(found)
    }

    /// The store of an open book is honest.
    ghost honest: { (book : Self) → is_open book → is_honest book };

    /// Of an open book a stop leaves its tables and nothing else,
    ghost settled: { (book : Self) → is_open book → (t : Tables) → may_leave book t
        → t ≡ tables book };

    /// and a book that stores them.
    ghost stored: { (book : Self) → is_open book → leaves_books book };

    /// Events led to its tables,
    ghost past: { (book : Self) → is_open book → HasPast (tables book) };

    /// and so they did to those within a group,
    ghost past_within: { (book : Self) (began : Tables) (faults : ℕ) → is_within book began faults
        → HasPast (tables book) };

    /// which can be given up.
    ghost returns: { (book : Self) (began : Tables) (faults : ℕ) → is_within book began faults
        → can_return book began faults };
}
