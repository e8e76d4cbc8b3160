//! What an answer of a host is.

ghost use Rattle.std.specs.Prelude.{◌≡◌};
ghost use Rattle.acq_control.specs.HostAnswers.{is_fault_kind, kind_of_line};

/// What an answer of a host is, by how its line begins.
#[derive(Clone, Copy, Drop)]
pub(crate) enum AnswerKind {
    /// A line.
    Line,
    /// A text, whose bytes stand behind the line.
    Text,
    /// A fault's line.
    Fault,
}

impl AnswerKind {
    /// What an answer with this line is.
    pub(crate) fn of(line: &[u8]) -> AnswerKind
        ensures { result ≡ kind_of_line line.now }
    {
        if line.starts_with(b"text ") {
            AnswerKind::Text
        } else if line.starts_with(b"acqd: ") {
            AnswerKind::Fault
        } else {
            AnswerKind::Line
        }
    }

    /// Whether it is a fault's line.
    pub(crate) fn is_fault(self) -> bool
        ensures { result ≡ is_fault_kind self }
    {
        matches!(self, AnswerKind::Fault)
    }
}
