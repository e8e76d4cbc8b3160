//! What the host's events, tables and decisions are; nothing here decides, and there is no store.
//!
//! An [`Event`] is read once, into an [`Arrival`]. What was looked up for it is [`Looked`], and what
//! it changes in the tables a [`Change`]. The definitions stand in `specs`: events as the host sees
//! them (`Arrivals.antt`), what has to be known to decide on one (`Known.antt`), the order of the
//! checks (`Decision.antt`), what it results in (`Outcome.antt`), and what it changes in the tables
//! (`Changes.antt`, `Tables.antt`). The messages themselves are those of `acq_message`, whose types
//! stand here too.
#![tactic(auto)]

mod admitted_count;
mod arrival;
mod change;
mod event;
pub mod examples;
mod first_reference;
mod limit;
mod looked;
mod merchant;
mod output;
mod posting;
mod query;
mod reconciliation;
mod remains;
mod reply_state;
mod request;
mod status;
mod terminal;
mod used_count;
mod wanted;

pub use acq_message::{
    Amount, AuthorizationId, Currency, DeclineCode, ElementContent, MerchantId, MessageText,
    Moment, Reference, RequestKey, RequestMessage, ResponseCode, Service, TerminalId, Trace,
    Transmission, Verdict, card_of, expiry_of,
};
pub use admitted_count::AdmittedCount;
pub use arrival::Arrival;
pub use change::Change;
pub use event::Event;
pub use first_reference::FirstReference;
pub use limit::Limit;
pub use looked::Looked;
pub use merchant::Merchant;
pub use output::Output;
pub use posting::Posting;
pub use query::Query;
pub use reconciliation::Reconciliation;
pub use remains::Remains;
pub use reply_state::ReplyState;
pub use request::Request;
pub use status::Status;
pub use terminal::Terminal;
pub use used_count::UsedCount;
pub use wanted::Wanted;
