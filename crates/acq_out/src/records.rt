//! Records of a text, one value each.
//!
//! [`read_records`] reads CSV with no header line, and gives the value that each record spells by a
//! [`RecordForm`], or the number of the first record out of its form. What is read stands in
//! `specs/Records.antt`.

pub mod laws;
mod reading;
mod record_fault;
mod record_form;

pub use reading::{field, read_records};
pub use record_fault::RecordFault;
pub use record_form::RecordForm;
