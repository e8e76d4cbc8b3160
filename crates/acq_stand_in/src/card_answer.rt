//! What the issuer of one card answers.

ghost use Rattle.std.specs.Prelude.{◌≡◌};
ghost use Rattle.acq_stand_in.specs.Answers.{is_for};

use acq_core::Verdict;
use card_no::CardNumber;

/// What the issuer of one card answers, as a record of the stand-in file says.
#[derive(Clone, Copy, Drop)]
pub struct CardAnswer {
    /// The card. Where the record's text is no valid card number, it is no request's card.
    pub card: Option<CardNumber>,
    pub verdict: Verdict,
    /// How many milliseconds the answer takes.
    pub takes: u32,
}

impl CardAnswer {
    /// Whether it is for the card of these digits.
    pub(crate) fn is_for(&self, card: &[u8]) -> bool
        ensures { result ≡ is_for card.now self.now }
    {
        match &self.card {
            Some(own) => own.digits() == card,
            None => false,
        }
    }
}
