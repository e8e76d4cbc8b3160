//! What a host can be asked between events.

ghost use Rattle.std.specs.Prelude.{◌≡◌, IfOk, is_ok};
ghost use Rattle.acq_book.specs.Calls.{Looks};
ghost use Rattle.acq_book.specs.Promise.{CountsFault};

use crate::host::Host;
use acq_book::{Book, BookFault};
use day_totals::Day;

impl<B: Book + Drop> Host<B> {
    /// The business day.
    pub fn day(&mut self) -> Result<Day, BookFault>
        ensures value { B.is_open self.new → IfOk result (λ day. day ≡ (B.tables self.old).day) }
        ensures looks { Looks B.Book self.old self.new (is_ok result) }
        ensures store { CountsFault result (B.failures self.old) (B.failures self.new) }
    {
        self.book.day()
    }
}
