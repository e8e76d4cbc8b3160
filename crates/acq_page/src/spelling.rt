//! Pages in writing.

ghost use Rattle.std.specs.Prelude.{◌≡◌, ◌++◌, IfOk, OnOk};
ghost use Rattle.acq_page.specs.Pages.{escaped, escaped_byte, page_of, spelled};

use crate::piece::Piece;
use itoa::Buffer;
use std::alloc::{AllocError, Global};

/// Room for a page.
const PAGE: usize = 16 * 1024;

/// The page that these pieces are, in their order.
pub fn spell(alloc: Global, pieces: &[Piece<'_>]) -> Result<Vec<u8>, AllocError>
    ensures { IfOk result (λ page. page.items ≡ page_of pieces.now) }
{
    let mut page = Vec::with_capacity(alloc, PAGE)?;
    for piece in pieces.iter() {
        put_piece(&mut page, piece)?;
    }
    Ok(page)
}

fn put_piece(page: &mut Vec<u8>, piece: &Piece<'_>) -> Result<(), AllocError>
    ensures { OnOk result (page.new.items ≡ page.old.items ++ spelled piece.now) }
{
    match *piece {
        Piece::Markup(words) => page.extend_from_slice(words.as_bytes()),
        Piece::Text(text) => put_escaped(page, text),
        Piece::Number(number) => page.extend_from_slice(Buffer::new().format(number).as_bytes()),
    }
}

fn put_escaped(page: &mut Vec<u8>, text: &[u8]) -> Result<(), AllocError>
    ensures { OnOk result (page.new.items ≡ page.old.items ++ escaped text.now) }
{
    for byte in text.iter() {
        put_byte(page, *byte)?;
    }
    Ok(())
}

/// Puts a byte of a text as it stands in HTML.
#[tactic(auto, unfolding(crate::specs::Pages::escaped_byte))]
fn put_byte(page: &mut Vec<u8>, byte: u8) -> Result<(), AllocError>
    ensures { OnOk result (page.new.items ≡ page.old.items ++ escaped_byte byte) }
{
    match byte {
        b'&' => page.extend_from_slice(b"&amp;"),
        b'<' => page.extend_from_slice(b"&lt;"),
        b'>' => page.extend_from_slice(b"&gt;"),
        b'"' => page.extend_from_slice(b"&quot;"),
        b'\'' => page.extend_from_slice(b"&#39;"),
        b' '..=b'~' => page.extend_from_slice(&[byte]),
        _ => page.extend_from_slice(b"."),
    }
}
