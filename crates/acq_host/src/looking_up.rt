//! What an event needs of a book.

ghost use Rattle.std.specs.Prelude.{◌≡◌, is_ok, IfOk};
ghost use Rattle.acq_core.specs.Looking.{known_of};
ghost use Rattle.acq_core.specs.Tables.{known_in};
ghost use Rattle.acq_book.specs.Calls.{GivesWithin, Looks};
ghost use Rattle.acq_book.specs.Promise.{CountsFault};

use acq_book::{Book, BookFault};
use acq_core::{Arrival, Looked, Wanted};
use acq_deciding::wanted_by;
use day_totals::Day;

/// Looks up what an event needs that was read.
#[tactic(auto, using(crate::proofs::Chains::looks_more))]
pub fn look_up<B: Book>(book: &mut B, arrival: &Arrival) -> Result<Looked, BookFault>
    ensures known { B.is_open book.new → IfOk result (λ looked.
        known_of looked ≡ known_in (B.tables book.old) arrival.now) }
    ensures looks { Looks B.Book book.old book.new (is_ok result) }
    ensures within { GivesWithin B.Book book.old book.new result
        (λ looked. known_of looked ≡ known_in (B.tables book.old) arrival.now) }
    ensures store { CountsFault result (B.failures book.old) (B.failures book.new) }
{
    let today = today(book)?;
    let wanted = wanted_by(today, arrival);
    book.look_up(&wanted)
}

/// The business day, within a group the one that it shows.
fn today<B: Book>(book: &mut B) -> Result<Day, BookFault>
    ensures day { B.is_open book.new → IfOk result (λ day. day ≡ (B.tables book.old).day) }
    ensures looks { Looks B.Book book.old book.new (is_ok result) }
    ensures within { GivesWithin B.Book book.old book.new result
        (λ day. day ≡ (B.tables book.old).day) }
    ensures store { CountsFault result (B.failures book.old) (B.failures book.new) }
{
    let nothing = Wanted::nothing();
    let looked = book.look_up(&nothing)?;
    let today = looked.today;
    drop(looked);
    Ok(today)
}
