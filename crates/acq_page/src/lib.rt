//! A page for people about a host that serves, and what else is asked for beside it over HTTP.
//!
//! It opens no sockets. [`HttpConnection`] is fed with what a browser sends and says what it asks;
//! [`reply_to`] makes the reply out of what the host said of itself. What a head asks stands in
//! `specs/Requests.antt`, what a reply is in `specs/Replies.antt`, how a host's texts are read in
//! `specs/Figures.antt`, and that they stand in a page escaped in `specs/Pages.antt`.
#![tactic(auto)]

mod alarm;
mod alarms;
mod asked;
mod bars;
mod content;
mod content_kind;
mod counted;
mod figure_table;
mod figures;
mod frame;
mod head;
mod host_name;
mod host_said;
mod html;
mod http_connection;
pub mod laws;
mod notice;
mod page;
mod piece;
mod questions;
mod reading;
mod replying;
mod request;
mod rows;
mod spelling;
mod status;
mod sums;
mod times;
mod waiting;

pub use asked::Asked;
pub use content_kind::ContentKind;
pub use figures::{all_behind, first_behind, lines_of};
pub use host_said::HostSaid;
pub use http_connection::HttpConnection;
pub use piece::Piece;
pub use questions::Questions;
pub use reading::LONGEST_HEAD;
pub use replying::reply_to;
pub use request::Request;
pub use spelling::spell;
pub use status::Status;
