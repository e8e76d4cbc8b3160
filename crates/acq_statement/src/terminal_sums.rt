//! The sums of a merchant's terminals on a day.

ghost use Rattle.std.specs.Prelude.{◌≡◌, [], map, is_ok, IfOk};
ghost use Rattle.acq_book.specs.Calls.{Looks};
ghost use Rattle.acq_book.specs.Promise.{CountsFault};
ghost use Rattle.acq_statement.specs.TerminalTotals.{day_postings, sums_at_terminal};
ghost use Rattle.acq_statement.specs.TerminalTotals.{sums_at_terminals, terminals_of};
ghost use Rattle.acq_statement.specs.TerminalTotals.{with_posting};

use crate::sums::Sums;
use acq_book::{Book, BookFault, Visit};
use acq_core::{MerchantId, Posting, Terminal, TerminalId};
use day_totals::Day;
use std::alloc::{AllocError, Global};

/// A terminal, and the sums of what it posted.
#[derive(Clone, Copy)]
pub(crate) struct TerminalSums {
    pub id: TerminalId,
    pub sums: Sums,
}

/// The sums of the postings that were handed over, by terminal.
#[derive(Drop)]
struct AtTerminals {
    sums: Vec<TerminalSums>,
}

impl Visit<(u64, Posting)> for AtTerminals {
    ghost use Rattle.acq_statement.specs.TerminalRows.{AddsPosting};

    ghost sees = { AddsPosting };

    fn row(&mut self, row: &(u64, Posting)) -> bool {
        add_posting(&mut self.sums, &row.1);
        true
    }
}

/// Adds a posting to the sums of its terminal.
pub(crate) fn add_posting(sums: &mut [TerminalSums], posting: &Posting)
    ensures { sums.new ≡ map (with_posting posting.now) sums.old }
{
    for at in 0..sums.len() {
        sums[at] = with_posting(posting, sums[at]);
    }
}

/// A terminal's sums with a posting, if it posted it.
fn with_posting(posting: &Posting, at: TerminalSums) -> TerminalSums
    ensures { result ≡ with_posting posting.now at }
{
    if posting.terminal != at.id {
        return at;
    }
    let mut sums = at.sums;
    sums.add_posting(posting.leg, posting.amount.number());
    TerminalSums { id: at.id, sums }
}

/// The sums of these terminals of a merchant on a day. A posting is compared with each of them.
pub(crate) fn terminal_sums<B: Book>(
    alloc: Global,
    book: &mut B,
    terminals: &[Terminal],
    merchant: MerchantId,
    day: Day,
) -> Result<Vec<TerminalSums>, BookFault>
    ensures sums { B.is_honest book.new → B.is_open book.old → IfOk result (λ sums.
        sums.items ≡ sums_at_terminals (day_postings (B.tables book.old) merchant day)
        terminals.now) }
    ensures looks { Looks B.Book book.old book.new (is_ok result) }
    ensures store { CountsFault result (B.failures book.old) (B.failures book.new) }
{
    let idle = match idle_terminals(alloc, terminals) {
        Ok(idle) => idle,
        Err(AllocError) => return Err(BookFault::Memory),
    };
    let mut at = AtTerminals { sums: idle };
    book.walk_postings_above(merchant, day, 0, &mut at)?;
    Ok(at.sums)
}

/// These terminals before anything is posted.
fn idle_terminals(alloc: Global, terminals: &[Terminal]) -> Result<Vec<TerminalSums>, AllocError>
    ensures { IfOk result (λ sums. sums.items ≡ sums_at_terminals [] terminals.now) }
{
    terminals
        .iter()
        .map(idle_terminal)
        .collect::<Vec<TerminalSums>>(alloc)
}

/// The merchant's terminals.
pub(crate) fn terminals_of(
    alloc: Global,
    terminals: &[Terminal],
    merchant: MerchantId,
) -> Result<Vec<Terminal>, AllocError>
    ensures { IfOk result (λ own. own.items ≡ terminals_of merchant terminals.now) }
{
    terminals
        .iter()
        .copied()
        .filter(|terminal| terminal.merchant == merchant)
        .collect::<Vec<Terminal>>(alloc)
}

/// A terminal before anything is posted.
fn idle_terminal(terminal: &Terminal) -> TerminalSums
    ensures { result ≡ sums_at_terminal [] terminal.now.id }
{
    idle(terminal.id)
}

/// One of this name.
#[tactic(auto, unfolding(day_totals::specs::Totals::totals_of))]
pub(crate) fn idle(id: TerminalId) -> TerminalSums
    ensures { result ≡ sums_at_terminal [] id }
{
    TerminalSums {
        id,
        sums: Sums::none(),
    }
}
