//! Reversals.

ghost use Rattle.std.specs.Prelude.{◌≡◌, ◌-◌, ◌++◌, ◌==◌, ◌&&◌, ◌||◌, not, nat_lt, replicate};
ghost use Rattle.std.specs.Prelude.{true, Some, IfOk};
ghost use Rattle.std.specs.List.{list_all};
ghost use Rattle.std.specs.Str.{bytes_eq};
ghost use Rattle.iso_codec.specs.Message.{IsoMessage};
ghost use Rattle.iso_codec.specs.Reading.{spelling};
ghost use Rattle.acq_message.specs.Services.{is_recordable};
ghost use Rattle.acq_message.specs.Reply.{referring_reply};
ghost use Rattle.acq_core.specs.Changes.{reversal_row, reversal_posting, reversing_leg};
ghost use Rattle.acq_core.specs.Changes.{remains_of, reversed_status, is_lowered};
ghost use Rattle.acq_core.specs.Decision.{reversal_of, original_of, fits_acquirer, is_awaited};
ghost use Rattle.acq_message.specs.Elements.{remaining_in};
ghost use Rattle.acq_core.specs.Looking.{known_of};
ghost use Rattle.acq_deciding.specs.Meaning.{meaning_of, is_feasible};
ghost use Rattle.acq_core.specs.Tables.{is_reversible, prior_of, reply_state_of};

use super::is_full;
use crate::decision::Decision;
use crate::effects::replied_and_recorded;
use acq_core::{Change, Looked, Output, Request, Status};
use acq_message::{
    CheckedRequest, ElementContent, MerchantId, ResponseCode, amount_in, original_acquirer,
    referring_reply, remaining_in,
};
use acq_rules::{
    is_final_for, posted_leg, reference_of, remains_of, reversal_posting, reversing_leg,
};
use day_totals::Day;
use std::alloc::{AllocError, Global};

/// What is to be done about a reversal whose key is new.
pub(super) fn reversal<'a>(looked: &'a Looked, request: &'a CheckedRequest) -> Decision<'a>
    requires { is_recordable request.now.service ≡ true }
    ensures value { let k = known_of looked.now in meaning_of result
        ≡ reversal_of k request.now (original_of request.now.message k.original) }
    ensures feasible { is_feasible (known_of looked.now) (meaning_of result) ≡ true }
{
    let message = &request.as_request().message;
    let Some(original) = &looked.original else {
        return Decision::Refuses(request, ResponseCode::RecordNotFound);
    };
    if !fits_acquirer(original_acquirer(message), &original.acquirer) {
        return Decision::Refuses(request, ResponseCode::RecordNotFound);
    }
    let remaining = remaining_in(message);
    if is_final_for(remaining, original.status) {
        return Decision::Refuses(request, ResponseCode::NoActionTaken);
    }
    if amount_in(message) != original.amount || remaining.number() >= original.amount.number() {
        return Decision::Refuses(request, ResponseCode::InvalidAmount);
    }
    if is_full(looked) {
        return Decision::Refuses(request, ResponseCode::LimitExceeded);
    }
    Decision::Reverses { request, original }
}

/// As many zeros as an acquirer has digits at most.
const ZEROS: [u8; 11] = *b"00000000000";

/// Whether the acquirer that a reversal names is zeros or the original's, right-justified with
/// zeros. Where the original had none, it is free.
pub fn fits_acquirer(named: &[u8], acquirer: &Option<ElementContent>) -> bool
    ensures { result ≡ fits_acquirer named.now acquirer.now }
{
    let Some(acquirer) = acquirer else {
        return true;
    };
    let padding = ZEROS.len().saturating_sub(acquirer.as_bytes().len());
    named == ZEROS.as_slice() || is_padded(named, padding, acquirer.as_bytes())
}

/// Whether a text is so many zeros and then another text.
fn is_padded(text: &[u8], padding: usize, end: &[u8]) -> bool
    ensures { result ≡ bytes_eq text.now (replicate padding 48 ++ end.now) }
{
    if text.len() < padding {
        return false;
    }
    let (zeros, rest) = text.split_at(padding);
    are_zeros(zeros) && rest == end
}

fn are_zeros(text: &[u8]) -> bool
    ensures { result ≡ list_all (λ b. b == 48) text.now }
{
    text.iter().all(|b| *b == b'0')
}

/// What goes out and what changes where an original is reversed.
pub(crate) fn reversed(
    alloc: Global,
    today: Day,
    merchant: Option<MerchantId>,
    request: &CheckedRequest,
    original: &Request,
) -> Result<(Output, Option<Change>), AllocError>
    requires { is_recordable request.now.service ≡ true }
    ensures output { IfOk result (λ x. x.0
        ≡ Output.Reply merchant (spelling (referring_reply today request.now
        (prior_of original.now).reference ResponseCode.Approved))) }
    ensures change { IfOk result (λ x. let p = prior_of original.now in x.1
        ≡ Some (Change.Follow (reversal_row today request.now p) p.key
        (remains_of p (remaining_in request.now.message)) (reversal_posting today request.now p))) }
{
    let message = request.as_request();
    let posting = reversal_posting(alloc, today, request, original)?;
    let reply = referring_reply(
        alloc,
        today,
        message,
        reference_of(original),
        ResponseCode::Approved,
    )?;
    let (output, mut row) = replied_and_recorded(alloc, today, merchant, request, reply)?;
    row.status = Status::Approved;
    row.admitted = true;
    row.follows = reference_of(original);
    row.leg = reversing_leg(posted_leg(original));
    let change = Change::Follow {
        request: row,
        original: original.key,
        remains: remains_of(original, remaining_in(&message.message)),
        posting,
    };
    Ok((output, Some(change)))
}
