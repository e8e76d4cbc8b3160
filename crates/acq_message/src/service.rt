//! The requests that are served.

ghost use Rattle.std.specs.Prelude.{◌≡◌};
ghost use Rattle.acq_message.specs.Services.{service_of, digits_of, reply_kind, needed, echoed};

/// A kind of request that is served. A request whose type ends in 1 is the repeat of the one whose
/// type ends in 0, and is served alike.
#[derive(Clone, Copy, PartialEq, Eq, Hash)]
pub enum Service {
    /// 0100 and 0101: a hold is asked for.
    Authorization,
    /// 0200 and 0201: a sale or a return.
    Financial,
    /// 0220 and 0221: a hold is completed.
    Completion,
    /// 0400 and 0401: an earlier request is reversed.
    Reversal,
    /// 0420 and 0421: the same, as an advice.
    ReversalAdvice,
    /// 0500 and 0501: a day's totals are compared.
    Reconciliation,
    /// 0800 and 0801: sign-on, sign-off and the echo test.
    NetworkManagement,
}

impl Service {
    /// The service of a message type, or `None` where the type isn't served.
    pub fn of(kind: [u8; 4]) -> Option<Service>
        ensures { result ≡ service_of kind }
    {
        match &kind {
            b"0100" | b"0101" => Some(Service::Authorization),
            b"0200" | b"0201" => Some(Service::Financial),
            b"0220" | b"0221" => Some(Service::Completion),
            b"0400" | b"0401" => Some(Service::Reversal),
            b"0420" | b"0421" => Some(Service::ReversalAdvice),
            b"0500" | b"0501" => Some(Service::Reconciliation),
            b"0800" | b"0801" => Some(Service::NetworkManagement),
            _ => None,
        }
    }

    /// The first three digits of the request's type.
    pub fn digits(self) -> [u8; 3]
        ensures { result ≡ digits_of self }
    {
        match self {
            Service::Authorization => *b"010",
            Service::Financial => *b"020",
            Service::Completion => *b"022",
            Service::Reversal => *b"040",
            Service::ReversalAdvice => *b"042",
            Service::Reconciliation => *b"050",
            Service::NetworkManagement => *b"080",
        }
    }

    /// The type of the reply.
    pub fn reply_kind(self) -> [u8; 4]
        ensures { result ≡ reply_kind self }
    {
        match self {
            Service::Authorization => *b"0110",
            Service::Financial => *b"0210",
            Service::Completion => *b"0230",
            Service::Reversal => *b"0410",
            Service::ReversalAdvice => *b"0430",
            Service::Reconciliation => *b"0510",
            Service::NetworkManagement => *b"0810",
        }
    }

    /// The elements that a request needs. An authorization, a sale and a return need a card
    /// besides, in element 2 or 35.
    pub fn needed(self) -> &'static [u8]
        ensures { result.now ≡ needed self }
    {
        match self {
            Service::Authorization | Service::Financial => &[3, 4, 7, 11, 41, 42, 49],
            Service::Completion => &[3, 4, 7, 11, 37, 41, 42, 49],
            Service::Reversal | Service::ReversalAdvice => &[4, 7, 11, 41, 42, 90],
            Service::Reconciliation => &[7, 11, 41, 42, 74, 75, 76, 77, 86, 87, 88, 89, 97],
            Service::NetworkManagement => &[7, 11, 70],
        }
    }

    /// The elements that a reply echoes where the request had them, in ascending order.
    pub fn echoed(self) -> &'static [u8]
        ensures { result.now ≡ echoed self }
    {
        match self {
            Service::Completion => &[2, 3, 4, 7, 11, 12, 13, 37, 41, 42, 49],
            Service::NetworkManagement => &[2, 3, 4, 7, 11, 12, 13, 41, 42, 49, 70],
            _ => &[2, 3, 4, 7, 11, 12, 13, 41, 42, 49],
        }
    }
}
