//! A host that is asked.

use crate::no_answer::NoAnswer;
use std::alloc::Global;

/// A host that can be asked over its control socket.
pub trait AskedHost {
    /// What it answers to these lines, one after the other, which stand without their ends: the
    /// bytes of a text, or nothing if it answers otherwise.
    fn ask(&self, alloc: Global, lines: &[&[u8]]) -> Result<Vec<Option<Vec<u8>>>, NoAnswer>;
}
