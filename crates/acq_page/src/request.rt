//! Requests.

ghost use Rattle.std.specs.Prelude.{◌≡◌, true};

use crate::asked::Asked;

/// What a request asks for, and whether the reply has a body.
#[derive(Clone, Copy, Debug, PartialEq, Eq)]
pub struct Request {
    pub asked: Asked,
    pub with_body: bool,
}

impl Request {
    /// One whose reply has a body.
    pub(crate) fn whole(asked: Asked) -> Request
        ensures { result ≡ record { asked = asked; with_body = true } }
    {
        Request {
            asked,
            with_body: true,
        }
    }
}
