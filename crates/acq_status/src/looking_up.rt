//! Figures of a book, looked up.

ghost use Rattle.std.specs.Prelude.{◌≡◌, ◌∷◌, [], is_ok, length, IfErr, IfOk};
ghost use Rattle.acq_book.specs.declared.book_fault.BookFault.TheVariants.{Memory};
ghost use Rattle.acq_book.specs.Calls.{Looks};
ghost use Rattle.acq_book.specs.Lookups.{merchants_at, range_count_at, terminal_count_at};
ghost use Rattle.acq_book.specs.Lookups.{used_on_at};
ghost use Rattle.acq_book.specs.Promise.{CountsFault};
ghost use Rattle.acq_status.specs.Figures.{figures_at, pending_between};
ghost use Rattle.acq_status.specs.Figures.{pending_to};
ghost use Rattle.acq_status.specs.Figures as spec;

use crate::book_figures::BookFigures;
use crate::first_waiting::first_waiting;
use crate::pending_day::PendingDay;
use acq_book::{Book, BookFault};
use acq_reports::merchant_names;
use day_totals::Day;
use std::alloc::Global;

/// Looks the figures of a book up (own profile; `specs/Figures.antt`). It takes memory for the
/// merchants' names.
pub(crate) fn look_up_figures<B: Book>(
    alloc: Global,
    book: &mut B,
) -> Result<BookFigures, BookFault>
    ensures figures { B.is_honest book.new → B.is_open book.old → IfOk result (λ figures.
        spec.figures_of figures ≡ figures_at (B.tables book.old)) }
    ensures looks { Looks B.Book book.old book.new (is_ok result) }
    ensures store { CountsFault result (B.failures book.old) (B.failures book.new) }
{
    let day = book.day()?;
    let limit = book.limit()?;
    let counts = counts_of(alloc, book, day)?;
    let pending = pending_to(alloc, book, day)?;
    Ok(BookFigures {
        day,
        limit,
        merchants: counts.merchants,
        terminals: counts.terminals,
        ranges: counts.ranges,
        requests_today: counts.requests_today,
        pending,
    })
}

/// How many there are of each, and how many messages of a day count against its limit.
#[derive(Clone, Copy)]
struct Counts {
    merchants: u64,
    terminals: u64,
    ranges: u64,
    requests_today: u64,
}

#[tactic(auto, using(acq_book::proofs::Chains::looks_more))]
fn counts_of<B: Book>(alloc: Global, book: &mut B, day: Day) -> Result<Counts, BookFault>
    ensures counts { B.is_honest book.new → B.is_open book.old → IfOk result (λ counts.
        (counts.merchants ≡ length (merchants_at (B.tables book.old)))
        × (counts.terminals ≡ terminal_count_at (B.tables book.old))
        × (counts.ranges ≡ range_count_at (B.tables book.old))
        × (counts.requests_today ≡ used_on_at (B.tables book.old) day)) }
    ensures looks { Looks B.Book book.old book.new (is_ok result) }
    ensures store { CountsFault result (B.failures book.old) (B.failures book.new) }
{
    let terminals = book.terminal_count()?;
    let ranges = book.range_count()?;
    let names = merchant_names(alloc, book)?;
    let requests_today = book.used_on(day)?;
    Ok(Counts {
        merchants: names.len() as u64,
        terminals,
        ranges,
        requests_today,
    })
}

/// How many requests are pending of each day from that of the first that waits.
#[tactic(auto, using(acq_book::proofs::Chains::looks_more, crate::proofs::NoneWaits::none_waits))]
fn pending_to<B: Book>(
    alloc: Global,
    book: &mut B,
    today: Day,
) -> Result<Vec<PendingDay>, BookFault>
    ensures pending { B.is_honest book.new → B.is_open book.old → IfOk result (λ pending.
        pending.items ≡ pending_to (B.tables book.old) today) }
    ensures looks { Looks B.Book book.old book.new (is_ok result) }
    ensures store { CountsFault result (B.failures book.old) (B.failures book.new) }
{
    match first_waiting(book)? {
        Some(first) => pending_between(alloc, book, first.day, today),
        None => none_pending(alloc, today),
    }
}

/// No request is pending of this day: where none waits, none has to be counted.
fn none_pending(alloc: Global, day: Day) -> Result<Vec<PendingDay>, BookFault>
    ensures pending { IfOk result (λ pending.
        pending.items ≡ record { day = day; requests = 0 } ∷ []) }
    ensures memory { IfErr result (λ fault. fault ≡ Memory) }
{
    match vec![in alloc; PendingDay { day, requests: 0 }] {
        Ok(pending) => Ok(pending),
        Err(_) => Err(BookFault::Memory),
    }
}

/// How many requests are pending of each day from one to another.
#[tactic(auto, using(acq_book::proofs::Chains::looks_more))]
fn pending_between<B: Book>(
    alloc: Global,
    book: &mut B,
    from: Day,
    to: Day,
) -> Result<Vec<PendingDay>, BookFault>
    ensures pending { B.is_honest book.new → B.is_open book.old → IfOk result (λ pending.
        pending.items ≡ pending_between (B.tables book.old) from to) }
    ensures looks { Looks B.Book book.old book.new (is_ok result) }
    ensures store { CountsFault result (B.failures book.old) (B.failures book.new) }
{
    let mut pending = Vec::new(alloc);
    let first = from.number();
    for ahead in 0..(to.number() + 1).saturating_sub(first) {
        let Some(day) = Day::from_number(first + ahead) else {
            unreachable!();
        };
        let requests = book.pending(day)?;
        if pending.push(PendingDay { day, requests }).is_err() {
            return Err(BookFault::Memory);
        }
    }
    Ok(pending)
}
