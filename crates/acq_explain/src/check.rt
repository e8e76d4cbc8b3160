//! The checks of a request.

ghost use Rattle.std.specs.Prelude.{◌≡◌};
ghost use Rattle.acq_explain.specs.Checks.{word_of, same_check};

/// A check that the host makes of a request (own profile).
#[derive(Clone, Copy)]
pub(crate) enum Check {
    /// Its elements: those that it needs are there, and can be checked.
    Elements,
    /// The merchant is enrolled.
    Merchant,
    /// The merchant has the terminal.
    Terminal,
    /// The key is new.
    Key,
    /// Element 3 asks for what the service has.
    Transaction,
    /// Element 49 is the merchant's currency.
    Currency,
    /// Element 4 is an amount that is accepted.
    Amount,
    /// The card number is valid.
    Card,
    /// The card isn't expired.
    Expiry,
    /// A range holds the card's prefix.
    Range,
    /// Element 37 refers to an open hold.
    Hold,
    /// The amount isn't above the hold's.
    HeldAmount,
    /// Element 90 names an earlier request.
    Original,
    /// The original can be reversed as it is asked.
    Reversible,
    /// Element 4 is the original's amount.
    SameAmount,
    /// What would remain is less than the original's amount.
    Remainder,
    /// Element 15 names a day, where it is there.
    Day,
    /// The claimed totals are the day's.
    Totals,
    /// Element 70 has a code that is served.
    NetworkCode,
    /// The merchant's day isn't full.
    Room,
}

impl Check {
    /// The check in a word or two.
    pub(crate) fn word(self) -> &'static str
        ensures { result.now ≡ word_of self }
    {
        match self {
            Check::Elements => "elements",
            Check::Merchant => "merchant",
            Check::Terminal => "terminal",
            Check::Key => "key",
            Check::Transaction => "transaction",
            Check::Currency => "currency",
            Check::Amount => "amount",
            Check::Card => "card",
            Check::Expiry => "expiry",
            Check::Range => "range",
            Check::Hold => "hold",
            Check::HeldAmount => "held amount",
            Check::Original => "original",
            Check::Reversible => "reversible",
            Check::SameAmount => "same amount",
            Check::Remainder => "remainder",
            Check::Day => "day",
            Check::Totals => "totals",
            Check::NetworkCode => "network code",
            Check::Room => "room",
        }
    }

    /// Whether it is this check.
    pub(crate) fn is(self, other: Check) -> bool
        ensures { result ≡ same_check other self }
    {
        self.word() == other.word()
    }
}
