//! The merchants that the options of `statement` name.

ghost use Rattle.std.specs.Prelude.{IfErr, IfOk};
ghost use Rattle.acq_program.specs.Options.{GivesMerchants};
ghost use Rattle.acq_program.specs.WantedMerchants.{MayRefuseMerchants};
ghost use Rattle.acq_program.specs.WantedReports.{each_text, texts_in};

use crate::option_name::OptionName;
use crate::usage_fault::UsageFault;
use acq_core::MerchantId;
use acq_out::merchant_of;
use std::alloc::Global;

/// The merchants that an option's values name, in their order; an option that isn't there names
/// none.
pub(crate) fn merchants_in(
    alloc: Global,
    texts: Option<&[&str]>,
) -> Result<Vec<MerchantId>, UsageFault>
    ensures given { IfOk result (λ merchants.
        GivesMerchants (texts_in texts.entry) merchants.items) }
    ensures refused { IfErr result (MayRefuseMerchants (texts_in texts.entry)) }
{
    match texts {
        Some(texts) => each_merchant(alloc, texts),
        None => Ok(Vec::new(alloc)),
    }
}

/// The merchant that each of these texts names.
fn each_merchant(alloc: Global, texts: &[&str]) -> Result<Vec<MerchantId>, UsageFault>
    ensures given { IfOk result (λ merchants.
        GivesMerchants (each_text texts.now) merchants.items) }
    ensures refused { IfErr result (MayRefuseMerchants (each_text texts.now)) }
{
    let mut merchants = Vec::new(alloc);
    for text in texts.iter() {
        let merchant = merchant_of(text.as_bytes()).ok_or(OptionName::Merchant)?;
        merchants.push(merchant)?;
    }
    Ok(merchants)
}
