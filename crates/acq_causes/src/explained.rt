//! Lines of faults, each with a line for a person behind it.

use crate::asked::Asked;
use crate::cause::Cause;
use crate::ended::Ended;
use crate::finding::cause_of;
use crate::signs::Signs;
use crate::told::Told;
use std::io::{self, Write};

/// The most bytes of a line that are looked at.
const LONGEST_LINE: usize = 128;

/// A writer of lines of faults. Where a person reads them, each has a second line behind it, that
/// says what it is about; what goes to a file or another program stays as it is.
#[derive(Drop)]
pub struct Explained<'a, W> {
    rt: &'a HostRuntime,
    faults: W,
    asked: Asked<'a>,
    signs: &'a Signs,
    is_read: bool,
    /// What came of the line in hand.
    line: Vec<u8>,
    ended: Option<Ended>,
}

impl<'a, W: Write> Explained<'a, W> {
    /// Lines that go there, of a run that was asked for this, which a person reads or not.
    pub fn new(
        rt: &'a HostRuntime,
        faults: W,
        asked: Asked<'a>,
        signs: &'a Signs,
        is_read: bool,
    ) -> Explained<'a, W> {
        Explained {
            rt,
            faults,
            asked,
            signs,
            is_read,
            line: Vec::new(rt.alloc()),
            ended: None,
        }
    }

    /// The fault that was told last, if it ended the program.
    pub fn ended(&self) -> Option<&Ended> {
        self.ended.as_ref()
    }

    fn took(&mut self, byte: u8) {
        if byte == b'\n' {
            self.ended = self.explain_line();
            self.line.clear();
        } else if self.line.len() < LONGEST_LINE {
            // A line that memory runs out for isn't explained.
            let _ = self.line.push(byte);
        }
    }

    /// Explains the line in hand, and returns the fault that it tells, if that ended the program.
    fn explain_line(&mut self) -> Option<Ended> {
        if !self.is_read && self.signs.log.get().is_none() {
            // Nobody is told, so nothing is looked at.
            return None;
        }
        let told = Told::read(self.line.as_slice())?;
        let cause = cause_of(self.rt, self.asked, self.signs, told)?;
        if self.is_read {
            // The line before it went out, which is what counts.
            let _ = note(&mut self.faults, &cause);
        }
        match told {
            Told::Fault(number, name) if !is_of_connection(number, self.signs) => {
                ended(self.rt, number, name, cause)
            }
            _ => None,
        }
    }
}

/// Whether a fault is one of a connection that a host serves, which goes on.
pub(crate) fn is_of_connection(number: u64, signs: &Signs) -> bool {
    signs.serves.get() && matches!(number, 50..=54 | 56 | 65)
}

fn ended(rt: &HostRuntime, number: u64, name: &str, cause: Cause) -> Option<Ended> {
    Some(Ended {
        number,
        name: String::from_str(rt.alloc(), name).ok()?,
        cause,
    })
}

fn note<W: Write>(faults: &mut W, cause: &Cause) -> io::Result<()> {
    match &cause.about {
        Some(about) => writeln!(faults, "acqd: note: {about}: {}", cause.words),
        None => writeln!(faults, "acqd: note: {}", cause.words),
    }
}

impl<W: Write> Write for Explained<'_, W> {
    fn write(&mut self, buf: &[u8]) -> io::Result<usize> {
        let n = self.faults.write(buf)?;
        for byte in buf[..n].iter() {
            self.took(*byte);
        }
        Ok(n)
    }

    fn flush(&mut self) -> io::Result<()> {
        self.faults.flush()
    }
}
