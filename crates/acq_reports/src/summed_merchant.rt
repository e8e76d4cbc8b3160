//! A merchant's first postings of a day, summed.

use crate::merchant_sums::MerchantSums;
use acq_core::{MerchantId, Posting};

/// The sums of a merchant's first postings of a day, up to a number.
#[derive(Clone, Copy)]
pub(crate) struct SummedMerchant {
    pub merchant: MerchantId,
    /// The number of the last of these postings.
    pub number: u64,
    pub sums: MerchantSums,
}

impl SummedMerchant {
    /// With the next posting, which has this number.
    pub fn with(self, number: u64, posting: &Posting) -> SummedMerchant {
        let mut sums = self.sums;
        sums.add(posting.leg, posting.amount.number());
        SummedMerchant {
            merchant: self.merchant,
            number,
            sums,
        }
    }

    /// The first posting alone.
    pub fn of(number: u64, posting: &Posting) -> SummedMerchant {
        let none = SummedMerchant {
            merchant: posting.merchant,
            number,
            sums: MerchantSums::none(),
        };
        none.with(number, posting)
    }
}
