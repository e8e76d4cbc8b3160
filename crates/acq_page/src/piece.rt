//! Pieces of a page.

/// A piece of a page.
#[derive(Clone, Copy, Drop)]
pub enum Piece<'a> {
    /// Words of this program, as they stand in HTML.
    Markup(&'static str),
    /// A text, of which nothing is HTML.
    Text(&'a [u8]),
    Number(u64),
}
