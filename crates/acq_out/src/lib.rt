//! Events in, as lines of text, and outputs out.
//!
//! [`read_events`] reads event lines, CSV with one event a record, and [`write_output`] writes what
//! the host says to one event as one line. What a line means stands in `specs/Fields.antt`,
//! `specs/EventLines.antt` and `specs/OutputLines.antt`.
#![tactic(auto)]

mod event_line;
mod event_lines;
mod fields;
pub mod laws;
mod line_name;
mod out_fault;
mod output_lines;
pub mod records;

pub use event_lines::read_events;
pub use fields::{merchant_of, moment_of, reference_of, terminal_of, verdict_of};
pub use out_fault::OutFault;
pub use output_lines::write_output;
