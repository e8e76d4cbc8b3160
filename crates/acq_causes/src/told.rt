//! What a line of a fault says.

use std::str;

/// What a line of a fault says.
#[derive(Clone, Copy)]
pub(crate) enum Told<'a> {
    /// The fault of this number and this name.
    Fault(u64, &'a str),
    /// This option's value is out of its form.
    BadValue(&'a str),
}

impl<'a> Told<'a> {
    /// What a line says, if it is one of a fault.
    pub(crate) fn read(line: &'a [u8]) -> Option<Told<'a>> {
        let said = str::from_utf8(line).ok()?.strip_prefix("acqd: ")?;
        match said.strip_prefix("bad value ") {
            Some(option) => Some(Told::BadValue(option)),
            None => fault_in(said),
        }
    }
}

/// The fault of a line that begins with a number and a name.
fn fault_in(said: &str) -> Option<Told<'_>> {
    let (number, rest) = said.split_once(' ')?;
    let name = match rest.split_once(' ') {
        Some((name, _)) => name,
        None => rest,
    };
    Some(Told::Fault(number.parse().ok()?, name))
}
