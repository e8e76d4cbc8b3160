//! A fault that ended the program.

use crate::cause::Cause;

/// A fault that ended the program: its number, its name, and what it is about.
#[derive(Drop)]
pub struct Ended {
    pub number: u64,
    pub name: String,
    pub cause: Cause,
}
