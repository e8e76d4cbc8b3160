//! Books that take a change of which nothing is known.

ghost use Rattle.std.specs.Prelude.{◌≤◌, is_ok};
ghost use Rattle.acq_core.specs.Tables.{after};
ghost use Rattle.acq_book.specs.Fits.{HasItsRequest};
ghost use Rattle.acq_book.specs.Groups.{IsLive, MakesWithinBy};
ghost use Rattle.acq_book.specs.Promise.{BlamesStore, CountsFault, MakesBy};
ghost use Rattle.acq_recall.specs.Suits.{Suits};

use acq_book::{Book, BookFault};
use acq_core::Change;

/// A book that takes any change. Of one that suits it says what `apply` says; of another, that it
/// is as honest as before, and counts its faults. So something may stand in front of it that is
/// only right while the book is.
pub trait Lenient: Book {
    /// Makes all of a change, or none of it; within a group it is made with the group.
    fn apply_any(&mut self, change: &Change) -> Result<(), BookFault>
        ensures makes { (IsLive Self.is_open Self.is_within self.old
            → Suits (Self.tables self.old) change.now)
            → MakesBy Self.tables Self.is_honest Self.is_open Self.may_leave Self.leaves_books
            Self.failures Self.store_faults self.old self.new
            (is_ok result) (after (Self.tables self.old) change.now) }
        ensures within { (IsLive Self.is_open Self.is_within self.old
            → Suits (Self.tables self.old) change.now)
            → MakesWithinBy Self.tables Self.is_honest Self.is_within Self.can_return
            Self.may_leave Self.leaves_books self.old self.new
            (is_ok result) (after (Self.tables self.old) change.now) }
        ensures was_honest { Self.is_honest self.new → Self.is_honest self.old }
        ensures rise { Self.failures self.old ≤ Self.failures self.new }
        ensures counts { Self.store_faults self.old ≤ Self.store_faults self.new }
        ensures store { CountsFault result (Self.failures self.old) (Self.failures self.new) }
        ensures blames { (IsLive Self.is_open Self.is_within self.old
            → Suits (Self.tables self.old) change.now)
            → Self.is_honest self.new → IsLive Self.is_open Self.is_within self.old
            → Self.has_room self.old → HasItsRequest (Self.tables self.old) change.now
            → BlamesStore result (Self.store_faults self.old) (Self.store_faults self.new) };
}
