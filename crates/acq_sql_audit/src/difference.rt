//! Where two databases differ.

use crate::{How, Table};
use std::fmt;

/// The first row in which a file differs from a book that was made. Its text is the table's name,
/// the row's number, and how it differs.
#[derive(Clone, Copy, Debug)]
pub struct Difference {
    pub table: Table,
    /// The row, counted from 1 in order of rowid.
    pub row: u64,
    pub how: How,
}

impl fmt::Display for Difference {
    ghost use Rattle.std.specs.Prelude.{Some};
    ghost use Rattle.acq_sql_audit.specs.Differences.{text_of};

    ghost output = { λ d. Some (text_of d) };

    fn fmt<W: fmt::Write>(&self, f: &mut fmt::Formatter<W>) -> fmt::Result {
        let table = self.table.name();
        let row = self.row;
        match self.how {
            How::Column(name) => write!(f, "{table} {row}: {name} differs"),
            How::Missing => write!(f, "{table} {row}: missing"),
            How::Surplus => write!(f, "{table} {row}: surplus"),
        }
    }
}
