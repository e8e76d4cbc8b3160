//! Where an element's content stands among a message's bytes.

ghost use Rattle.std.specs.Prelude.{◌≡◌, true, length, take, drop};
ghost use Rattle.iso_codec.specs.Span.{is_within};

/// An element, and where its content stands among a message's bytes.
#[derive(Clone, Copy)]
pub struct Span {
    pub number: u8,
    pub start: usize,
    pub len: usize,
}

/// The bytes at a span.
pub fn bytes_at(bytes: &[u8], span: Span) -> &[u8]
    requires { is_within (length bytes.now) span ≡ true }
    ensures { result.now ≡ take span.len (drop span.start bytes.now) }
{
    &bytes[span.start..span.start + span.len]
}
