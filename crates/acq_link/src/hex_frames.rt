//! Messages as lines of hexadecimal digits, for a person to write and a program to read.
//!
//! [`frames_of_hex`] turns a text of such lines into frames. What the lines of a text are, and what
//! they hold, stands in `specs/HexLines.antt`.

mod hex_fault;
mod hex_lines;
pub mod laws;

pub use hex_fault::HexFault;
pub use hex_lines::frames_of_hex;
