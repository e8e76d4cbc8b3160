//! Whether a report has nothing in it.

use crate::asked::Asked;
use std::io::{self, Write};

/// The commands that write reports.
const CLEARING: &str = "clearing";

const REPORT: &str = "report";

/// In a settlement report a merchant's figures stand behind so many characters of its line.
const FIGURES: usize = 15;

/// A writer that notes whether what goes through it is a report in which nothing stands: a clearing
/// file that is its heading alone, or a settlement report all of whose figures are zeros.
#[derive(Drop)]
pub struct Emptiness<W> {
    writer: W,
    /// A report goes through it.
    is_watched: bool,
    /// How many lines ended, and how many bytes of the one in hand came.
    lines: u64,
    column: usize,
    has_figure: bool,
}

impl<W> Emptiness<W> {
    /// Nothing went through it yet of what was asked for.
    pub fn new(writer: W, asked: Asked<'_>) -> Emptiness<W> {
        Emptiness {
            writer,
            is_watched: matches!(asked.command(), CLEARING | REPORT),
            lines: 0,
            column: 0,
            has_figure: false,
        }
    }

    /// Whether that was the report that was asked for, and nothing stands in it.
    pub fn is_of(&self, asked: Asked<'_>) -> bool {
        match asked.command() {
            CLEARING => self.lines == 1,
            REPORT => self.lines > 1 && !self.has_figure,
            _ => false,
        }
    }

    fn took(&mut self, byte: u8) {
        match byte {
            b'\n' => {
                self.lines = self.lines.saturating_add(1);
                self.column = 0;
            }
            _ => {
                let is_figure = self.lines > 0 && self.column >= FIGURES;
                self.has_figure = self.has_figure || is_figure && matches!(byte, b'1'..=b'9');
                self.column = self.column.saturating_add(1);
            }
        }
    }
}

impl<W: Write> Write for Emptiness<W> {
    fn write(&mut self, buf: &[u8]) -> io::Result<usize> {
        let n = self.writer.write(buf)?;
        if self.is_watched {
            for byte in buf[..n].iter() {
                self.took(*byte);
            }
        }
        Ok(n)
    }

    fn flush(&mut self) -> io::Result<()> {
        self.writer.flush()
    }
}
