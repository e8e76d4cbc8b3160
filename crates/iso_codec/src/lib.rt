//! Messages of ISO 8583:1987, in the profile of this host: read by [`decode`], written by
//! [`encode`].
//!
//! A [`Message`] is four digits of type and the contents of its elements. What a text of bytes
//! reads as is a relation in `specs/Message.antt`, and each fault a rule in `specs/Faults.antt`;
//! [`laws`] says that every text reads as exactly one message or one first fault.
#![tactic(auto)]

mod bitmap_digits;
mod bitmaps;
mod class;
mod classes;
mod content;
mod decode_fault;
mod decoding;
mod element_format;
mod encoding;
pub mod examples;
mod fault_places;
mod form;
pub mod laws;
mod message;
mod set_fault;
mod span;

pub use classes::{all_alphanumeric, all_digits, all_printable};
pub use decode_fault::DecodeFault;
pub use decoding::decode;
pub use encoding::encode;
pub use fault_places::fault_place;
pub use message::Message;
pub use set_fault::SetFault;
