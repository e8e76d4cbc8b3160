//! The checks that a request passes.

ghost use Rattle.std.specs.Prelude.{◌≡◌, ◌++◌, OnOk, flat_map};
ghost use Rattle.std.specs.List.{position};
ghost use Rattle.acq_core.specs.Looking.{known_of};
ghost use Rattle.acq_explain.specs.Checks.{checks_of, check_of, has_used_key, failed, before};
ghost use Rattle.acq_explain.specs.Checks.{same_check, passed, later_word, listed, passed_line};
ghost use Rattle.acq_explain.specs.Checks.{checks_line};

use crate::check::Check;
use acq_core::Looked;
use acq_message::{CheckedRequest, Service};
use acq_reasons::Reason;
use std::alloc::AllocError;

/// Puts the line of the checks that a request passes, up to the one that decides.
pub(crate) fn put_passed(
    text: &mut Vec<u8>,
    looked: &Looked,
    request: &CheckedRequest,
    reason: &Option<Reason>,
) -> Result<(), AllocError>
    ensures { OnOk result (text.new.items
        ≡ text.old.items ++ passed_line (known_of looked.now) request.now reason.now) }
{
    put_checks(text, passed(looked, request, reason))
}

/// Puts the line of checks that were passed.
#[tactic(auto, unfolding(crate::specs::Checks::checks_line))]
fn put_checks(text: &mut Vec<u8>, checks: &[Check]) -> Result<(), AllocError>
    ensures { OnOk result (text.new.items ≡ text.old.items ++ checks_line checks.now) }
{
    text.extend_from_slice(b"    passed: ")?;
    put_listed(text, checks)?;
    text.extend_from_slice(b"\n")
}

/// The checks that it passes.
#[tactic(auto, unfolding(crate::specs::Checks::passed))]
fn passed(looked: &Looked, request: &CheckedRequest, reason: &Option<Reason>) -> &'static [Check]
    ensures { result.now ≡ passed (known_of looked.now) request.now reason.now }
{
    let last = failed(reason, has_used_key(looked, request));
    checks_before(last, checks_of(request.as_request().service))
}

/// The checks of a service in their order.
fn checks_of(service: Service) -> &'static [Check]
    ensures { result.now ≡ checks_of service }
{
    match service {
        Service::Authorization | Service::Financial => &[
            Check::Elements,
            Check::Merchant,
            Check::Terminal,
            Check::Key,
            Check::Transaction,
            Check::Currency,
            Check::Amount,
            Check::Card,
            Check::Expiry,
            Check::Range,
            Check::Room,
        ],
        Service::Completion => &[
            Check::Elements,
            Check::Merchant,
            Check::Terminal,
            Check::Key,
            Check::Transaction,
            Check::Currency,
            Check::Amount,
            Check::Hold,
            Check::HeldAmount,
            Check::Room,
        ],
        Service::Reversal | Service::ReversalAdvice => &[
            Check::Elements,
            Check::Merchant,
            Check::Terminal,
            Check::Key,
            Check::Original,
            Check::Reversible,
            Check::SameAmount,
            Check::Remainder,
            Check::Room,
        ],
        Service::Reconciliation => &[
            Check::Elements,
            Check::Merchant,
            Check::Terminal,
            Check::Key,
            Check::Day,
            Check::Totals,
        ],
        Service::NetworkManagement => &[Check::Elements, Check::NetworkCode],
    }
}

/// Whether a request's key is recorded.
pub(crate) fn has_used_key(looked: &Looked, request: &CheckedRequest) -> bool
    ensures { result ≡ has_used_key (known_of looked.now) request.now }
{
    match request.as_request().service {
        Service::NetworkManagement => false,
        _ => looked.recorded.is_some(),
    }
}

/// The check that a request doesn't pass: of one without a reason, whose key is used, that of its
/// key.
fn failed(reason: &Option<Reason>, used_key: bool) -> Option<Check>
    ensures { result ≡ failed reason.now used_key }
{
    match reason {
        Some(reason) => check_of(reason),
        None if used_key => Some(Check::Key),
        None => None,
    }
}

/// The check that a reason is of; what an issuer says is of none.
fn check_of(reason: &Reason) -> Option<Check>
    ensures { result ≡ check_of reason.now }
{
    match reason {
        Reason::MissingElement(_)
        | Reason::MissingCard
        | Reason::Unverifiable(_)
        | Reason::TrackWithoutCard
        | Reason::TwoCards
        | Reason::BadRemainder => Some(Check::Elements),
        Reason::UnknownMerchant => Some(Check::Merchant),
        Reason::UnknownTerminal => Some(Check::Terminal),
        Reason::OtherRequest => Some(Check::Key),
        Reason::OtherTransaction => Some(Check::Transaction),
        Reason::OtherCurrency => Some(Check::Currency),
        Reason::UnknownNetworkCode => Some(Check::NetworkCode),
        Reason::AmountOutOfRange => Some(Check::Amount),
        Reason::AboveHold => Some(Check::HeldAmount),
        Reason::OtherAmount => Some(Check::SameAmount),
        Reason::NothingTaken => Some(Check::Remainder),
        Reason::InvalidCard => Some(Check::Card),
        Reason::ExpiredCard => Some(Check::Expiry),
        Reason::NoRange => Some(Check::Range),
        Reason::DayFull => Some(Check::Room),
        Reason::BadReference
        | Reason::NoSuchReference
        | Reason::NotAHold
        | Reason::HoldWaits
        | Reason::HoldReversedEarly
        | Reason::HoldDeclined
        | Reason::HoldExpired
        | Reason::HoldEnded => Some(Check::Hold),
        Reason::NoOriginal | Reason::OtherAcquirer => Some(Check::Original),
        Reason::OriginalWaits
        | Reason::OriginalRefused
        | Reason::OriginalDeclined
        | Reason::OriginalEnded
        | Reason::OriginalLowered
        | Reason::OriginalReversed => Some(Check::Reversible),
        Reason::NoSuchDay => Some(Check::Day),
        Reason::OutOfBalance => Some(Check::Totals),
        Reason::Declined(_) | Reason::NoAnswer => None,
    }
}

/// The checks before this one, or all.
fn checks_before(last: Option<Check>, checks: &'static [Check]) -> &'static [Check]
    ensures { result.now ≡ before last checks.now }
{
    let Some(last) = last else {
        return checks;
    };
    match place_of(last, checks) {
        Some(end) => &checks[..end],
        None => checks,
    }
}

/// Where a check stands among others, if it does.
fn place_of(check: Check, checks: &[Check]) -> Option<usize>
    ensures { result ≡ position (same_check check) checks.now }
{
    checks.iter().position(|other| other.is(check))
}

/// Puts the words of checks, with commas between.
#[tactic(auto, unfolding(crate::specs::Checks::listed))]
fn put_listed(text: &mut Vec<u8>, checks: &[Check]) -> Result<(), AllocError>
    ensures { OnOk result (text.new.items ≡ text.old.items ++ listed checks.now) }
{
    match checks {
        [] => Ok(()),
        [first, later @ ..] => {
            text.extend_from_slice(first.word().as_bytes())?;
            put_later(text, later)
        }
    }
}

/// Puts the words of checks, each behind a comma.
fn put_later(text: &mut Vec<u8>, checks: &[Check]) -> Result<(), AllocError>
    ensures { OnOk result (text.new.items
        ≡ text.old.items ++ flat_map later_word checks.now) }
{
    for check in checks.iter() {
        put_later_word(text, *check)?;
    }
    Ok(())
}

/// Puts the word of a check behind a comma.
fn put_later_word(text: &mut Vec<u8>, check: Check) -> Result<(), AllocError>
    ensures { OnOk result (text.new.items ≡ text.old.items ++ later_word check) }
{
    text.extend_from_slice(b", ")?;
    text.extend_from_slice(check.word().as_bytes())
}
