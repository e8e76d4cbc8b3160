//! Card numbers as they may be shown.

ghost use Rattle.std.specs.Prelude.{◌≡◌, ◌++◌, replicate, IfOk, OnOk};
ghost use Rattle.card_no.specs.CardNumbers.{masked_of};

use std::alloc::{AllocError, Global};

/// How many digits are shown at the start, and at the end.
const SHOWN_FIRST: usize = 6;

const SHOWN_LAST: usize = 4;

/// The first six digits of a card number, a `*` for each digit between, and the last four.
pub(crate) fn masked(alloc: Global, card: &[u8]) -> Result<Vec<u8>, AllocError>
    ensures { IfOk result (λ text. text.items ≡ masked_of card.now) }
{
    let len = card.len();
    let mut text = Vec::from_slice(alloc, &card[..len.min(SHOWN_FIRST)])?;
    put_repeated(
        &mut text,
        b'*',
        len.saturating_sub(SHOWN_FIRST + SHOWN_LAST),
    )?;
    text.extend_from_slice(&card[len.saturating_sub(SHOWN_LAST)..])?;
    Ok(text)
}

/// Puts a byte so many times.
pub(crate) fn put_repeated(text: &mut Vec<u8>, b: u8, count: usize) -> Result<(), AllocError>
    ensures { OnOk result (text.new.items ≡ text.old.items ++ replicate count b) }
{
    for _ in 0..count {
        text.push(b)?;
    }
    Ok(())
}
