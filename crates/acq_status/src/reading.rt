//! Figures with their values.

ghost use Rattle.std.specs.Prelude.{◌≡◌};

use crate::figure::Figure;

/// A figure, and what it is.
#[derive(Clone, Copy)]
pub struct Reading {
    pub(crate) figure: Figure,
    pub(crate) value: u64,
}

impl Reading {
    pub(crate) fn new(figure: Figure, value: u64) -> Reading
        ensures { result ≡ record { figure = figure; value = value } }
    {
        Reading { figure, value }
    }
}
