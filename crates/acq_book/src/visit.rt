//! Visitors of rows.

/// What a walk hands its rows to, one at a time. It says by `sees` what a row makes of it.
pub trait Visit<Row> {
    ghost use Rattle.std.specs.Prelude.{Bool};

    /// What a row makes of the visitor, and whether it wants more.
    ghost sees: { Self → Row → Bool → Self → Type 0 };

    /// Takes a row, and returns whether it wants more.
    fn row(&mut self, row: &Row) -> bool
        ensures { sees self.old row.now result self.new };
}
