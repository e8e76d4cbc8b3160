//! What a request says, and what its reply holds: the messages of this host over those of
//! `iso_codec`.
//!
//! A [`RequestMessage`] is a message of a [`Service`] that is served. Its elements are read in
//! `specs/Elements.antt` and `specs/Cards.antt`, the first check of each stands in
//! `specs/FirstCheck.antt`, and the elements of each reply in `specs/Reply.antt`. No table has a
//! part in any of it.
#![tactic(auto)]

mod amount;
mod authorization_id;
mod card;
mod checked_request;
mod claims;
mod currency;
mod decline_code;
mod digits;
mod element_content;
mod elements;
mod essence;
mod first_check;
mod merchant_id;
mod message_text;
mod moment;
mod reconciliation_reply;
mod reference;
mod reply;
mod request_key;
mod request_message;
mod response_code;
mod service;
mod terminal_id;
mod trace;
mod transmission;
mod verdict;
mod with_content;

pub use amount::Amount;
pub use authorization_id::AuthorizationId;
pub use card::{card_of, expiry_of};
pub use checked_request::CheckedRequest;
pub use claims::claimed_in;
pub use currency::Currency;
pub use decline_code::DeclineCode;
pub use digits::digits_value;
pub use element_content::ElementContent;
pub use elements::{
    amount_in, original_acquirer, reference_in, remaining_in, sale_leg, settlement_date, text_at,
    transaction_in,
};
pub use essence::essence_of;
pub use first_check::is_malformed;
pub use merchant_id::MerchantId;
pub use message_text::MessageText;
pub use moment::Moment;
pub use reconciliation_reply::totals_reply;
pub use reference::Reference;
pub use reply::{answered_reply, coded_reply, draft_reply, merchant_in, referring_reply, spelled};
pub use request_key::{RequestKey, key_of, merchant_of, original_key, terminal_of, trace_of};
pub use request_message::RequestMessage;
pub use response_code::ResponseCode;
pub use service::Service;
pub use terminal_id::TerminalId;
pub use trace::Trace;
pub use transmission::Transmission;
pub use verdict::Verdict;
