//! A list that becomes the ranges of a book.

ghost use Rattle.std.specs.Prelude.{◌≡◌, ◌++◌, ℕ, Bool, OnOk};
ghost use Rattle.acq_book.specs.Calls.{Looks};
ghost use Rattle.acq_core.specs.Pasts.{HasPast};
ghost use Rattle.acq_core.specs.Tables.{tables_after};
ghost use Rattle.acq_host.specs.Runs.{after_first};
ghost use Rattle.acq_range_changes.specs.Changes.{changes_to};
ghost use Rattle.acq_commands.specs.Ranges.{changes_text, lines_of};

use crate::group_size::GroupSize;
use crate::progress::Progress;
use crate::taking_events::take_each;
use acq_book::Book;
use acq_core::Event;
use acq_faults::Fault;
use acq_host::Host;
use acq_link::{Sink, write_out};
use acq_range_changes::{change_lines, range_changes};
use card_no::RangeList;
use std::alloc::Global;

/// How many events are taken at once.
const AT_ONCE: usize = 1_000;

/// Writes the lines of the events by which a list would become the ranges of a book.
pub fn write_range_changes<B: Book, K: Sink>(
    alloc: Global,
    book: &mut B,
    list: &RangeList,
    output: &mut K,
) -> Result<(), Fault>
    ensures text { B.is_honest book.new → B.is_open book.old → OnOk result
        (K.sent output.new ≡ K.sent output.old ++ changes_text list.now (B.tables book.old)) }
    ensures looks { (done : Bool) × Looks B.Book book.old book.new done }
{
    let changes = match range_changes(alloc, book, list) {
        Ok(changes) => changes,
        Err(fault) => return Err(Fault::from(fault)),
    };
    write_lines(alloc, changes.as_slice(), output)
}

/// Makes a list the ranges of a book, by events that are taken a thousand at a time, and gives the
/// book back with how that ended; then it writes the lines of these events. Where a fault stops it,
/// some first ones may have been taken, in whole groups, and the same call goes on from there.
pub fn set_ranges_on<B: Book + Drop, K: Sink, P: Progress>(
    alloc: Global,
    mut book: B,
    list: &RangeList,
    output: &mut K,
    progress: &mut P,
) -> (B, Result<(), Fault>)
    requires past { B.is_open book → HasPast (B.tables book) }
    ensures set { B.is_honest result.0 → B.is_open book → OnOk result.1
        ((B.tables result.0
        ≡ tables_after (B.tables book) (changes_to list.now (B.tables book)))
        × (K.sent output.new ≡ K.sent output.old ++ changes_text list.now (B.tables book))) }
    ensures first { B.is_honest result.0 → B.is_open book → B.is_open result.0 → (n : ℕ)
        × (B.tables result.0
        ≡ after_first n (B.tables book) (changes_to list.now (B.tables book))) }
{
    let changes = match range_changes(alloc, &mut book, list) {
        Ok(changes) => changes,
        Err(fault) => return (book, Err(Fault::from(fault))),
    };
    let mut host = Host::new(alloc, book);
    let ended = take_and_tell(alloc, &mut host, changes.as_slice(), output, progress);
    progress.end();
    (host.into_book(), ended)
}

/// Takes events, and then writes their lines.
fn take_and_tell<B: Book + Drop, K: Sink, P: Progress>(
    alloc: Global,
    host: &mut Host<B>,
    events: &[Event],
    output: &mut K,
    progress: &mut P,
) -> Result<(), Fault>
    ensures set { B.is_honest host.new → B.is_open host.old → OnOk result
        ((B.tables host.new ≡ tables_after (B.tables host.old) events.now)
        × (K.sent output.new ≡ K.sent output.old ++ lines_of events.now)) }
    ensures first { B.is_honest host.new → B.is_open host.old → B.is_open host.new → (n : ℕ)
        × (B.tables host.new ≡ after_first n (B.tables host.old) events.now) }
    ensures was_honest { B.is_honest host.new → B.is_honest host.old }
{
    let Some(group) = GroupSize::new(AT_ONCE) else {
        unreachable!();
    };
    match take_each(host, group, events, progress) {
        Ok(()) => write_lines(alloc, events, output),
        Err(fault) => Err(Fault::from(fault)),
    }
}

/// Writes the lines of these events.
fn write_lines<K: Sink>(alloc: Global, events: &[Event], output: &mut K) -> Result<(), Fault>
    ensures { OnOk result (K.sent output.new ≡ K.sent output.old ++ lines_of events.now) }
{
    let text = change_lines(alloc, events)?;
    match write_out(output, text.as_slice()) {
        Ok(()) => Ok(()),
        Err(bytes) => Err(Fault::Write(bytes)),
    }
}
