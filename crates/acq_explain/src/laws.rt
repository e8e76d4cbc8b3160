//! A law of the checks.

ghost use Rattle.acq_explain.specs.Laws.{ChecksPass, ChecksFail};

/// Each check that a request is said to pass holds of what is known and of the request, and the one
/// that it is said not to pass doesn't.
pub fn checks_are_true()
    ensures passed { ChecksPass }
    ensures failed { ChecksFail }
{}
