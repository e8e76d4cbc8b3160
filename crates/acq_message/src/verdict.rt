//! What issuers say.

ghost use Rattle.std.specs.Prelude.{◌≡◌, true, SomeIff};
ghost use Rattle.acq_message.specs.IssuerTexts.{is_authorization_id, is_decline_code};
ghost use Rattle.acq_message.specs.Reply.{authorization_id, verdict_code};

use crate::authorization_id::AuthorizationId;
use crate::decline_code::DeclineCode;
use crate::response_code::ResponseCode;

/// What an issuer says to a request that it was asked about.
#[derive(Clone, Copy)]
pub enum Verdict {
    /// It approves, under this id.
    Approved(AuthorizationId),
    /// It declines, with this code.
    Declined(DeclineCode),
    /// It said nothing in time.
    NoAnswer,
}

impl Verdict {
    /// An approval under an authorization id, or `None` where the text isn't six bytes of class an.
    /// It takes no memory.
    pub fn approved(id: &[u8]) -> Option<Verdict>
        ensures { SomeIff result (is_authorization_id id.now ≡ true) (Verdict.Approved id.now) }
    {
        let id = AuthorizationId::read(id)?;
        Some(Verdict::Approved(id))
    }

    /// A decline with a code, or `None` where the text isn't two bytes of class an, or is `00`. It
    /// takes no memory.
    pub fn declined(code: &[u8]) -> Option<Verdict>
        ensures { SomeIff result (is_decline_code code.now ≡ true) (Verdict.Declined code.now) }
    {
        let code = DeclineCode::read(code)?;
        Some(Verdict::Declined(code))
    }

    /// The authorization id of an approval.
    pub fn authorization_id(&self) -> Option<AuthorizationId>
        ensures { result ≡ authorization_id self.now }
    {
        match self {
            Verdict::Approved(id) => Some(*id),
            Verdict::Declined(_) | Verdict::NoAnswer => None,
        }
    }

    /// The code of the reply.
    pub fn code(&self) -> ResponseCode
        ensures { result ≡ verdict_code self.now }
    {
        match self {
            Verdict::Approved(_) => ResponseCode::Approved,
            Verdict::Declined(code) => ResponseCode::Declined(*code),
            Verdict::NoAnswer => ResponseCode::IssuerInoperative,
        }
    }
}
