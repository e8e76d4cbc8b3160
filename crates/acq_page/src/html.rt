//! Pages that are being made.

use crate::piece::Piece;
use std::alloc::{AllocError, Global};

/// A page that is being made: its pieces so far.
#[derive(Drop)]
pub(crate) struct Html<'a> {
    pieces: Vec<Piece<'a>>,
}

impl<'a> Html<'a> {
    pub(crate) fn new(alloc: Global) -> Html<'a> {
        Html {
            pieces: Vec::new(alloc),
        }
    }

    pub(crate) fn pieces(&self) -> &[Piece<'a>] {
        self.pieces.as_slice()
    }

    /// Puts words of this program, as they stand in HTML.
    pub(crate) fn words(&mut self, words: &'static str) -> Result<(), AllocError> {
        self.put(Piece::Markup(words))
    }

    /// Puts a text, of which nothing is HTML.
    pub(crate) fn text(&mut self, text: &'a [u8]) -> Result<(), AllocError> {
        self.put(Piece::Text(text))
    }

    pub(crate) fn number(&mut self, number: u64) -> Result<(), AllocError> {
        self.put(Piece::Number(number))
    }

    fn put(&mut self, piece: Piece<'a>) -> Result<(), AllocError> {
        self.pieces.push(piece)?;
        Ok(())
    }
}
