//! Currencies of merchants.

ghost use Rattle.std.specs.Prelude.{◌≡◌, IfOk};
ghost use Rattle.acq_statement.specs.Currencies.{currencies_of, is_one_of};

use acq_core::Merchant;
use acq_message::Currency;
use std::alloc::{AllocError, Global};

/// The currencies of these merchants, each once, in order of the first merchant that has it.
pub(crate) fn currencies_of(
    alloc: Global,
    merchants: &[Merchant],
) -> Result<Vec<Currency>, AllocError>
    ensures { IfOk result (λ found. found.items ≡ currencies_of merchants.now) }
{
    let mut found = Vec::new(alloc);
    for merchant in merchants.iter() {
        if !is_one_of(found.as_slice(), merchant.currency) {
            found.push(merchant.currency)?;
        }
    }
    Ok(found)
}

fn is_one_of(found: &[Currency], currency: Currency) -> bool
    ensures { result ≡ is_one_of found.now currency }
{
    found
        .iter()
        .any(|one| one.to_bytes() == currency.to_bytes())
}
