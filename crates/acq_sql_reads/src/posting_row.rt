//! A posting from its row.

ghost use Rattle.std.specs.Prelude.{◌≡◌, ℕ, List, true, length, IfOk};
ghost use Rattle.sqlite_value.specs.declared.value.Value.TheVariants.{Text};
ghost use Rattle.sqlite_value.specs.Order.{column};
ghost use Rattle.card_no.specs.CardNumbers.{is_valid_card};
ghost use Rattle.acq_sql_rows.specs.Rows.{posting_row};
ghost use Rattle.acq_sql_reads.specs.Failing.{FailsForMemory, IsPostingRow, NeedsText};

use crate::columns::{
    amount_at, day_at, leg_at, merchant_at, read, reference_at, terminal_at, text_at,
};
use acq_core::Posting;
use acq_message::{ElementContent, Trace};
use card_no::CardNumber;
use sqlite::{Error, ErrorCode, Row};
use std::alloc::Global;

/// The posting of a row with the nine columns, and its number.
pub fn read_posting(alloc: Global, row: &Row) -> Result<(u64, Posting), Error>
    ensures value { IfOk result (λ p. length row.now ≡ 9 → row.now ≡ posting_row p) }
    ensures fails { IsPostingRow row.now → FailsForMemory result }
{
    let merchant = merchant_at(row, 0)?;
    let day = day_at(row, 1)?;
    let number = row.get(2)?;
    let leg = leg_at(row, 3)?;
    let amount = amount_at(row, 4)?;
    let reference = reference_at(row, 5)?;
    let terminal = terminal_at(row, 7)?;
    let trace = read(Trace::read(text_at(row, 8)?))?;
    let card = card_at(alloc, row, 6)?;
    Ok((
        number,
        Posting {
            merchant,
            day,
            leg,
            amount,
            reference,
            card,
            terminal,
            trace,
        },
    ))
}

/// The card of a column, copied. One that is no valid card number is none that a host wrote, and
/// would be cleared.
fn card_at(alloc: Global, row: &Row, at: usize) -> Result<ElementContent, Error>
    ensures value { IfOk result (λ content. column row.now at ≡ Text content) }
    ensures fails { (text : List ℕ) → column row.now at ≡ Text text → is_valid_card text ≡ true
        → FailsForMemory result }
    ensures memory { NeedsText (column row.now at) result }
{
    let text = text_at(row, at)?;
    read(CardNumber::read(text))?;
    match ElementContent::from_slice(alloc, text) {
        Ok(content) => Ok(content),
        Err(_) => Err(Error::SqliteFailure(ErrorCode::OutOfMemory)),
    }
}
