//! What the host says to an issuer's answer.

ghost use Rattle.std.specs.Prelude.{◌≡◌, is_ok, IfOk};
ghost use Rattle.acq_book.specs.Calls.{Looks};
ghost use Rattle.acq_book.specs.Promise.{CountsFault};
ghost use Rattle.acq_gateway_lines.specs.Outcomes.{has_answer, outcome_at, outcome_of};

use acq_book::{Book, BookFault};
use acq_core::{MerchantId, Reference, Request, Status, Verdict};
use acq_message::text_at;

/// What the host says to an issuer's answer that was taken, or couldn't be (own profile). It says
/// it by what the book has of the request, so an answer that comes twice is told twice that the
/// book has it.
#[derive(Clone, Copy, Debug, PartialEq, Eq)]
pub enum AnswerOutcome {
    /// The book has this answer.
    Done,
    /// 33: the request was reversed before it was answered.
    Late,
    /// 34: the merchant hasn't given this reference.
    UnknownReference,
    /// 35: the request was answered otherwise.
    AlreadyAnswered,
    /// 37: no such merchant is enrolled.
    NoSuchMerchant,
}

impl AnswerOutcome {
    /// The number of a refusal.
    pub fn number(self) -> Option<u32> {
        match self {
            AnswerOutcome::Done => None,
            AnswerOutcome::Late => Some(33),
            AnswerOutcome::UnknownReference => Some(34),
            AnswerOutcome::AlreadyAnswered => Some(35),
            AnswerOutcome::NoSuchMerchant => Some(37),
        }
    }
}

/// What is said to a verdict on a merchant's request.
#[tactic(auto, using(acq_book::proofs::Chains::looks_more))]
pub fn outcome_for<B: Book>(
    book: &mut B,
    merchant: MerchantId,
    reference: Reference,
    verdict: &Verdict,
) -> Result<AnswerOutcome, BookFault>
    ensures outcome { B.is_honest book.new → B.is_open book.old → IfOk result (λ outcome.
        outcome ≡ outcome_at (B.tables book.old) merchant reference verdict.now) }
    ensures looks { Looks B.Book book.old book.new (is_ok result) }
    ensures store { CountsFault result (B.failures book.old) (B.failures book.new) }
{
    let enrolled = book.merchant(merchant)?;
    let row = book.by_reference(merchant, reference)?;
    Ok(outcome_of(enrolled.is_some(), &row, verdict))
}

/// What is said of a request that is there or isn't.
fn outcome_of(is_enrolled: bool, row: &Option<Request>, verdict: &Verdict) -> AnswerOutcome
    ensures { result ≡ outcome_of is_enrolled row.now verdict.now }
{
    if !is_enrolled {
        return AnswerOutcome::NoSuchMerchant;
    }
    match row {
        None => AnswerOutcome::UnknownReference,
        Some(row) if matches!(row.status, Status::ReversedPending) => AnswerOutcome::Late,
        Some(row) if has_answer(row, verdict) => AnswerOutcome::Done,
        Some(_) => AnswerOutcome::AlreadyAnswered,
    }
}

/// Whether a request's reply carries a verdict.
fn has_answer(row: &Request, verdict: &Verdict) -> bool
    ensures { result ≡ has_answer row.now verdict.now }
{
    let code = text_at(&row.reply, 39);
    match verdict {
        Verdict::Approved(id) => {
            code == b"00".as_slice() && text_at(&row.reply, 38) == id.to_bytes().as_slice()
        }
        Verdict::Declined(text) => code == text.to_bytes().as_slice(),
        Verdict::NoAnswer => code == b"91".as_slice(),
    }
}
