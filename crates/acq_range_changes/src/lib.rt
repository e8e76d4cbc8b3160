//! The events by which a list becomes a book's ranges of cards, and their lines.
//!
//! [`list_changes`] compares two lists, and [`range_changes`] a book's ranges and a list: each
//! range that is new is added, right behind the drops of those that go and don't lie behind it. In
//! this order none of the events is refused, and cards whose range is replaced are without an
//! issuer for the few events of that replacement alone. What the events are is defined in
//! `specs/Changes.antt`, and their lines, which [`change_lines`] makes, in `specs/Lines.antt`.
#![tactic(auto)]

mod change_text;
mod changes;
mod gathering;
pub mod laws;

pub use change_text::{change_line, change_lines};
pub use changes::{list_changes, range_changes};
