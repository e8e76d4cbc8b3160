//! Books by prefixes of six digits as books by eight.

ghost use Rattle.acq_widening.specs.Widening.{WidensRuns, WidensPasts, SixDigitRanges};

/// A run by six digits, with the ranges widened, is a run by eight digits of the same events, but for
/// those about ranges: the refused ones are left out, and the accepted ones are widened. What the
/// host says to each other event stays the same.
pub fn runs_are_widened()
    ensures { WidensRuns }
{}

/// So tables that events led to by six digits are, with their ranges widened, tables that events
/// lead to by eight.
pub fn pasts_are_widened()
    ensures { WidensPasts }
{}

/// Tables that events led to by six digits have no range that isn't valid by six digits.
pub fn ranges_fit_their_profile()
    ensures { SixDigitRanges }
{}
