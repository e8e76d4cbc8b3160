//! What a person is shown of a message.
//!
//! [`show_message`] gives the text: the type and its name, and a line for each element; or why the
//! bytes spell no message, and where. What the text is stands in `specs/Shown.antt`, and what codes
//! mean in `specs/Meanings.antt`. No card number is shown whole, and of tracks, PIN blocks and chip
//! data nothing else. [`show_lines`] does so of the messages in lines as `replay` reads and writes
//! them.
#![tactic(auto)]

mod contents;
mod event_lines;
pub mod laws;
mod lines;
mod meanings;
mod names;
mod remarks;

pub use contents::put_content;
pub use event_lines::{line_at, show_lines, without_return};
pub use lines::{NAME_WIDTH, show_message};
pub use names::element_name;
