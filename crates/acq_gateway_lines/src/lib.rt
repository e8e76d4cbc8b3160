//! What a gateway to issuers is told of the rows of a book (own profile): a query for each request
//! that waits for its issuer's answer, and an advice for each completion, for each reversal, and
//! for each request that was ended without an answer. Rows are told in the order in which they
//! came, in slices. And what the host says to an answer, by what the book has of its request.
//!
//! The lines are defined over the tables in `specs/Lines.antt`, and the slices in
//! `specs/Slices.antt`.
#![tactic(auto)]

mod advice;
mod answer_outcome;
mod known_of_row;
mod line_text;
mod notice;
mod row_line;
mod slice;
mod told_query;
mod told_row;
mod waiting_message;

pub use answer_outcome::{AnswerOutcome, outcome_for};
pub use notice::{Notice, notice_of};
pub use slice::{GatewaySlice, gateway_slice};
pub use told_query::ToldQuery;
pub use waiting_message::WaitingMessage;
