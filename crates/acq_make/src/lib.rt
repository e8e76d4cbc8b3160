//! Messages that are made of text.
//!
//! [`make_messages`] is the inverse of what `acq_show` shows: it reads a line for a message's type
//! and one for each element, and gives the messages as frames, or as lines of hexadecimal. What a
//! line says stands in `specs/Lines.antt`, and what messages a text says in `specs/Said.antt`.
#![tactic(auto)]

mod contents;
mod draft;
pub mod laws;
mod line_kind;
mod lines;
mod made_form;
mod make_fault;
mod saying;
mod written;

pub use made_form::MadeForm;
pub use make_fault::MakeFault;
pub use saying::make_messages;
pub use written::put_made;
