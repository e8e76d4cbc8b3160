//! A command, as its help has it.

use crate::parameter::Parameter;

/// A command: its name, what it does in a line and in a page, and what it takes.
#[derive(Clone, Copy)]
pub(crate) struct CommandText<'a> {
    pub name: &'a str,
    pub about: &'a str,
    pub more: &'a str,
    pub parameters: &'a [Parameter<'a>],
}
