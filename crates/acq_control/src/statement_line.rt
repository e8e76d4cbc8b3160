//! What a line asks that has a statement written.

ghost use Rattle.std.specs.Prelude.{◌≡◌, ◌==◌};
ghost use Rattle.std.specs.List.{position};
ghost use Rattle.acq_control.specs.StatementLines.{AsksOnDay, AsksInForm, AsksStatement};

use crate::merchant_statement::MerchantStatement;
use crate::reading::{CSV, comma_in};
use acq_core::MerchantId;
use acq_out::merchant_of;
use acq_statement::StatementForm;
use day_totals::Day;
use std::str;

/// The statement of the merchant before the first comma, of the day and in the form behind it.
pub(crate) fn statement_of(text: &[u8]) -> Option<MerchantStatement>
    ensures { AsksStatement text.now (position (λ byte. byte == 44) text.now) result }
{
    let comma = comma_in(text)?;
    let merchant = merchant_of(&text[..comma])?;
    in_form(merchant, &text[comma + 1..])
}

/// That of the day whose date stands before the first comma, in the form behind it.
fn in_form(merchant: MerchantId, text: &[u8]) -> Option<MerchantStatement>
    ensures { AsksInForm merchant text.now (position (λ byte. byte == 44) text.now) result }
{
    let Some(comma) = comma_in(text) else {
        return on_day(merchant, StatementForm::Text, text);
    };
    if &text[comma + 1..] == CSV {
        on_day(merchant, StatementForm::Csv, &text[..comma])
    } else {
        None
    }
}

/// That of the day whose date this is.
fn on_day(merchant: MerchantId, form: StatementForm, date: &[u8]) -> Option<MerchantStatement>
    ensures { AsksOnDay merchant form date.now result }
{
    let Ok(date) = str::from_utf8(date) else {
        return None;
    };
    let day = Day::read(date)?;
    Some(MerchantStatement {
        merchant,
        day,
        form,
    })
}
