//! What a request and a posting add to their day.

ghost use Rattle.std.specs.Prelude.{◌≡◌, ◌≤◌};
ghost use Rattle.acq_sql_rows.specs.Tallies.{request_tally, posting_tally};

use acq_core::{Posting, Request};
use day_totals::Totals;

/// How many messages a request counts for against its day.
pub fn used_by(request: &Request) -> u64
    ensures value { result ≡ (request_tally request.now).used }
    ensures few { result ≤ 1 }
{
    if request.admitted { 1 } else { 0 }
}

/// The totals of one posting.
pub fn totals_of_posting(posting: &Posting) -> Totals
    ensures { result ≡ (posting_tally posting.now).totals }
{
    let mut totals = Totals::zero();
    totals.add(posting.leg, posting.amount.number());
    totals
}
