//! The book that a run begins with.

ghost use Rattle.acq_core.specs.Pasts.{HasPast};

use crate::sale::{Sale, merchant_at, terminal_at};
use acq_core::{Currency, Event, FirstReference, Limit, MerchantId, TerminalId};
use acq_host::Host;
use acq_list_book::ListBook;
use acq_memory_lines::take_one_event;
use acq_soundness::book_laws::books_are_sound;
use acq_soundness::every_opening;
use card_no::{IssuerId, Range};
use day_totals::Day;
use std::alloc::Global;
use std::hash::RandomState;

/// The first business day of a book.
pub const FIRST_DAY: &str = "2024-05-01";

/// A host over a book in memory, with two issuers' ranges, and some merchants with some terminals
/// each. `None` where memory runs out.
pub fn opened_host(alloc: Global, keys: RandomState) -> Option<Host<ListBook>> {
    let (limit, first_day) = (Limit::from_number(40)?, Day::read(FIRST_DAY)?);
    let mut host = Host::new(alloc, new_book(alloc, keys, limit, first_day));
    match set_up(alloc, &mut host) {
        Some(()) => Some(host),
        None => None,
    }
}

/// Adds the ranges, and enrols the merchants and their terminals.
fn set_up(alloc: Global, host: &mut Host<ListBook>) -> Option<()> {
    add_range(alloc, host, 40_000_000, 49_999_999)?;
    add_range(alloc, host, 50_000_000, 59_999_999)?;
    for merchant in 0..Sale::ENROLLED {
        enrol(host, merchant)?;
        for terminal in 0..Sale::FITTED {
            add_terminal(host, merchant, terminal)?;
        }
    }
    Some(())
}

/// A new book in memory.
fn new_book(alloc: Global, keys: RandomState, limit: Limit, first_day: Day) -> ListBook
    ensures { HasPast result.tables }
{
    every_opening(limit, first_day);
    books_are_sound();
    ListBook::new(alloc, keys, limit, first_day)
}

fn add_range(alloc: Global, host: &mut Host<ListBook>, low: u32, high: u32) -> Option<()> {
    let event = Event::AddRange(range(alloc, low, high)?);
    take_one_event(host, &event).ok()
}

fn enrol(host: &mut Host<ListBook>, merchant: usize) -> Option<()> {
    let (merchant, currency) = (merchant_id(merchant)?, currency()?);
    let event = Event::Enrol(merchant, currency, first_reference()?);
    take_one_event(host, &event).ok()
}

fn add_terminal(host: &mut Host<ListBook>, merchant: usize, terminal: usize) -> Option<()> {
    let event = Event::AddTerminal(merchant_id(merchant)?, terminal_id(terminal)?);
    take_one_event(host, &event).ok()
}

/// A merchant's name, by its place.
pub fn merchant_id(place: usize) -> Option<MerchantId> {
    MerchantId::read(merchant_at(place).as_bytes())
}

/// A terminal's name, by its place.
pub fn terminal_id(place: usize) -> Option<TerminalId> {
    TerminalId::read(terminal_at(place).as_bytes())
}

/// The currency of all merchants.
pub fn currency() -> Option<Currency> {
    Currency::read(b"978")
}

/// The first reference of all merchants.
pub fn first_reference() -> Option<FirstReference> {
    FirstReference::from_number(1)
}

/// An issuer's range.
pub fn range(alloc: Global, low: u32, high: u32) -> Option<Range> {
    let issuer = IssuerId::from_slice(alloc, b"12345").ok()?;
    Some(Range {
        low,
        high,
        issuer,
        hold_days: 7,
    })
}
