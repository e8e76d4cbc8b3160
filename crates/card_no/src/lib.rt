//! Card numbers, the card number in track 2, and the issuers' ranges of card prefixes.
#![tactic(auto)]

mod card_number;
mod digits;
mod issuer_id;
pub mod laws;
mod masked_number;
mod prefix;
mod range;
mod range_fault;
mod range_file;
mod range_list;
mod range_text;
mod read_stop;
mod track2;

pub use card_number::CardNumber;
pub use issuer_id::IssuerId;
pub use masked_number::MaskedNumber;
pub use prefix::Prefix;
pub use range::Range;
pub use range_fault::RangeFault;
pub use range_list::RangeList;
pub use track2::split_track2;
