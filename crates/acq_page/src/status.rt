//! Statuses of replies.

ghost use Rattle.std.specs.Prelude.{◌≡◌};
ghost use Rattle.acq_page.specs.Replies.{reason_of};

/// How a request fared.
#[derive(Clone, Copy, Debug, PartialEq, Eq)]
pub enum Status {
    Done,
    BadHead,
    NotFound,
    OtherMethod,
    OtherHost,
    HeadTooLong,
    /// The host doesn't answer.
    NoHost,
}

impl Status {
    /// Its number, and what it is called (RFC 9110, section 15; RFC 6585, section 5).
    pub(crate) fn reason(self) -> &'static str
        ensures { result.now ≡ reason_of self }
    {
        match self {
            Status::Done => "200 OK",
            Status::BadHead => "400 Bad Request",
            Status::NotFound => "404 Not Found",
            Status::OtherMethod => "405 Method Not Allowed",
            Status::OtherHost => "421 Misdirected Request",
            Status::HeadTooLong => "431 Request Header Fields Too Large",
            Status::NoHost => "503 Service Unavailable",
        }
    }
}
