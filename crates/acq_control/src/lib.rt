//! Control connections to a host that serves terminals: lines in, which ask for an event, a text or
//! the host's end, and what is said to each out.
//!
//! A [`ControlConversation`] is one end of such a connection without its reads and writes, as
//! `Conversation` is one of a terminal's: it is fed with what comes, has the host do what the
//! lines ask turn by turn, and holds what is to be written. A clearing file is made slice by slice,
//! and so are rows gone over for a settlement report, a statement and what is found, so that others
//! are served between two of them. A [`ControlExchange`] is one over a line whose reads and writes
//! don't wait. What they have to do with one host, among terminals, stands in `specs/Log.antt` and
//! [`laws`].
//!
//! [`tell`] is the other side of such a connection: the lines of an input in, and what the host
//! says to them out.
#![tactic(auto)]

mod answer_kind;
mod answering;
mod clearing_answer;
mod clearing_stage;
mod comparison_look;
mod control_conversation;
mod control_exchange;
mod control_input;
mod control_round;
mod control_turn;
mod find_line;
mod first_waiting;
mod found;
mod gathering_look;
pub mod held_laws;
mod host_answer;
mod input_lines;
pub mod laws;
mod line_buffer;
mod list_text;
mod merchant_statement;
mod pending_text;
mod preparing;
mod question;
mod question_word;
mod reading;
mod report_csv_text;
mod said;
mod search_look;
mod settlement_text;
mod sought;
mod stated;
mod statement_line;
mod status_text;
mod sums_text;
mod taken_line;
mod telling;
pub mod telling_laws;
mod unmade_answer;
mod wish;

pub use control_conversation::ControlConversation;
pub use control_exchange::ControlExchange;
pub use control_round::ControlRound;
pub use control_turn::ControlTurn;
pub use first_waiting::FirstWaiting;
pub use merchant_statement::MerchantStatement;
pub use question::Question;
pub use sought::Sought;
pub use telling::tell;
pub use wish::Wish;
