//! The names of event lines.

ghost use Rattle.std.specs.Prelude.{◌≡◌};
ghost use Rattle.acq_out.specs.EventLines.{name_of_text};

/// Which event a line is of.
#[derive(Clone, Copy)]
pub(crate) enum LineName {
    Frame,
    Answer,
    Cutover,
    AddRange,
    DropRange,
    Enrol,
    Terminal,
}

impl LineName {
    /// The name that a line's first field is, in lower case.
    pub(crate) fn read(text: &[u8]) -> Option<LineName>
        ensures { result ≡ name_of_text text.now }
    {
        if text == b"frame".as_slice() {
            Some(LineName::Frame)
        } else if text == b"answer".as_slice() {
            Some(LineName::Answer)
        } else if text == b"cutover".as_slice() {
            Some(LineName::Cutover)
        } else if text == b"addrange".as_slice() {
            Some(LineName::AddRange)
        } else if text == b"droprange".as_slice() {
            Some(LineName::DropRange)
        } else if text == b"enrol".as_slice() {
            Some(LineName::Enrol)
        } else if text == b"terminal".as_slice() {
            Some(LineName::Terminal)
        } else {
            None
        }
    }
}
