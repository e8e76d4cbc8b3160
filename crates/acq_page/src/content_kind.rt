//! Kinds of content.

ghost use Rattle.std.specs.Prelude.{◌≡◌};
ghost use Rattle.acq_page.specs.Replies.{media_of};

/// What a reply's body is.
#[derive(Clone, Copy, Debug, PartialEq, Eq)]
pub enum ContentKind {
    Html,
    /// Prometheus's text format.
    Metrics,
}

impl ContentKind {
    /// Its media type.
    pub(crate) fn media(self) -> &'static str
        ensures { result.now ≡ media_of self }
    {
        match self {
            ContentKind::Html => "text/html; charset=utf-8",
            ContentKind::Metrics => "text/plain; version=0.0.4; charset=utf-8",
        }
    }
}
