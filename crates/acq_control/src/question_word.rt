//! Which question a line asks.

ghost use Rattle.std.specs.Prelude.{◌≡◌, ◌≤◌, length};
ghost use Rattle.acq_control.specs.Questions.{word_length, word_of};

/// Which question a line asks, by how it begins.
#[derive(Clone, Copy, Drop)]
pub(crate) enum QuestionWord {
    Stop,
    Clearing,
    Report,
    Sums,
    Statement,
    Find,
    Holds,
    Pending,
    Explain,
    List,
    Status,
    Metrics,
    End,
    Reopen,
    Event,
}

impl QuestionWord {
    /// Which question this line asks.
    pub(crate) fn of(line: &[u8]) -> QuestionWord
        ensures word { result ≡ word_of line.now }
        ensures within { word_length result ≤ length line.now }
    {
        if line == b"stop".as_slice() {
            QuestionWord::Stop
        } else if line.starts_with(b"clearing,") {
            QuestionWord::Clearing
        } else if line.starts_with(b"report,") {
            QuestionWord::Report
        } else if line.starts_with(b"sums,") {
            QuestionWord::Sums
        } else if line.starts_with(b"statement,") {
            QuestionWord::Statement
        } else if line.starts_with(b"find,") {
            QuestionWord::Find
        } else if line.starts_with(b"holds,") {
            QuestionWord::Holds
        } else if line.starts_with(b"pending,") {
            QuestionWord::Pending
        } else if line.starts_with(b"explain,") {
            QuestionWord::Explain
        } else if line.starts_with(b"list,") {
            QuestionWord::List
        } else if line == b"status".as_slice() {
            QuestionWord::Status
        } else if line == b"metrics".as_slice() {
            QuestionWord::Metrics
        } else if line.starts_with(b"end,") {
            QuestionWord::End
        } else if line == b"reopen".as_slice() {
            QuestionWord::Reopen
        } else {
            QuestionWord::Event
        }
    }

    /// How many bytes it has with the comma behind it, if one is.
    pub(crate) fn length(self) -> usize
        ensures { result ≡ word_length self }
    {
        match self {
            QuestionWord::Statement => 10,
            QuestionWord::Clearing => 9,
            QuestionWord::Pending | QuestionWord::Explain => 8,
            QuestionWord::Report => 7,
            QuestionWord::Holds => 6,
            QuestionWord::Sums | QuestionWord::Find | QuestionWord::List => 5,
            QuestionWord::End => 4,
            _ => 0,
        }
    }
}
