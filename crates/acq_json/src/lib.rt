//! Messages as JSON, and JSON as messages.
//!
//! [`json_of_message`] gives a message as a JSON object on a line: its type, and the contents of
//! its elements by their numbers (`specs/Written.antt`). [`json_of_lines`] does so of the messages
//! in lines as `replay` reads and writes them (`specs/Lines.antt`). [`make_of_json`] is the
//! inverse: it makes messages of such objects, one a line (`specs/Said.antt`).
//!
//! The members stand in the order of the elements, and one that is said twice is refused. So reader
//! and writer are those of `json`, which keeps both; a map of its members would keep neither.
#![tactic(auto)]

mod card_form;
mod elements;
mod event_lines;
pub mod laws;
mod members;
mod reading;
mod writing;

pub use card_form::CardForm;
pub use event_lines::json_of_lines;
pub use reading::make_of_json;
pub use writing::json_of_message;
