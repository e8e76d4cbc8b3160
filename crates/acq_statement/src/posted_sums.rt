//! Sums of terminals, whichever posted, slice by slice.

ghost use Rattle.std.specs.Prelude.{◌≡◌, ◌+◌, ℕ, List, map, true, IfOk, OnOk};
ghost use Rattle.std.specs.List.{find, list_any};
ghost use Rattle.std.specs.Option.{option_copied};
ghost use Rattle.std.specs.Str.{bytes_eq};
ghost use Rattle.acq_statement.specs.Gathered.{sums_in};
ghost use Rattle.acq_statement.specs.TerminalTotals.{with_posting};

use crate::terminal_sums::{TerminalSums, add_posting, idle};
use acq_book::Visit;
use acq_core::{Posting, Terminal, TerminalId};
use acq_reports::goes_on;
use std::alloc::{AllocError, Global};

/// The sums of the postings that were handed over, up to a row, by the terminals that posted.
#[derive(Drop)]
pub(crate) struct PostedSums {
    pub(crate) sums: Vec<TerminalSums>,
    /// The number of the last posting.
    pub(crate) number: u64,
    /// How many postings were gone over.
    pub(crate) gone: u64,
    /// With so many the walk ends.
    pub(crate) end: Option<u64>,
    /// Memory ran out.
    pub(crate) is_short: bool,
}

impl PostedSums {
    /// Adds a posting to the sums of its terminal.
    fn add(&mut self, row: &(u64, Posting)) -> Result<(), AllocError>
        ensures sums { OnOk result ((terminal : List ℕ) → sums_in self.new.sums.items terminal
            ≡ with_posting row.now.1 (sums_in self.old.sums.items terminal)) }
        ensures number { OnOk result (self.new.number ≡ row.now.0) }
        ensures gone { OnOk result (self.new.gone ≡ self.old.gone + 1) }
        ensures end { self.new.end ≡ self.old.end }
    {
        let Some(gone) = self.gone.checked_add(1) else {
            return Err(AllocError);
        };
        add_terminal(&mut self.sums, row.1.terminal)?;
        post(&mut self.sums, &row.1);
        self.number = row.0;
        self.gone = gone;
        Ok(())
    }
}

impl Visit<(u64, Posting)> for PostedSums {
    ghost use Rattle.acq_statement.specs.TerminalRows.{SumsOne};

    ghost sees = { SumsOne };

    fn row(&mut self, row: &(u64, Posting)) -> bool {
        match self.add(row) {
            Ok(()) => goes_on(self.end, self.gone),
            Err(AllocError) => {
                self.is_short = true;
                false
            }
        }
    }
}

/// Adds a posting to the sums of its terminal, which is one of these.
fn post(sums: &mut Vec<TerminalSums>, posting: &Posting)
    ensures { sums.new.items ≡ map (with_posting posting.now) sums.old.items }
{
    add_posting(sums, posting);
}

/// Adds a terminal that posted nothing, unless it is one of these.
#[tactic(auto, using(crate::proofs::SumsOfTerminals::sums_push))]
fn add_terminal(sums: &mut Vec<TerminalSums>, terminal: TerminalId) -> Result<(), AllocError>
    ensures has { OnOk result
        (list_any (λ at. bytes_eq at.id terminal) sums.new.items ≡ true) }
    ensures same { OnOk result ((one : List ℕ)
        → sums_in sums.new.items one ≡ sums_in sums.old.items one) }
{
    if !has(sums.as_slice(), terminal) {
        sums.push(idle(terminal))?;
    }
    Ok(())
}

/// Whether a terminal is one of these.
fn has(sums: &[TerminalSums], terminal: TerminalId) -> bool
    ensures { result ≡ list_any (λ at. bytes_eq at.id terminal) sums.now }
{
    sums.iter().any(|at| at.id == terminal)
}

/// The sums of these terminals, of those of the terminals that posted.
pub(crate) fn sums_of_terminals(
    alloc: Global,
    sums: &[TerminalSums],
    terminals: &[Terminal],
) -> Result<Vec<TerminalSums>, AllocError>
    ensures { IfOk result (λ found.
        found.items ≡ map (λ terminal. sums_in sums.now terminal.id) terminals.now) }
{
    terminals
        .iter()
        .map(|terminal| sums_in(sums, terminal.id))
        .collect::<Vec<TerminalSums>>(alloc)
}

/// The sums of a terminal among these.
fn sums_in(sums: &[TerminalSums], terminal: TerminalId) -> TerminalSums
    ensures { result ≡ sums_in sums.now terminal }
{
    match found(sums, terminal) {
        Some(at) => *at,
        None => idle(terminal),
    }
}

/// Those of a terminal, if it is one of these.
fn found(sums: &[TerminalSums], terminal: TerminalId) -> Option<&TerminalSums>
    ensures { option_copied result
        ≡ find (λ at. bytes_eq at.id terminal) sums.now }
{
    sums.iter().find(|at| at.id == terminal)
}
