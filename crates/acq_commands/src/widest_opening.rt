//! What a book begins with that is made for one run.

ghost use Rattle.std.specs.Prelude.{◌≡◌};

use acq_core::Limit;
use day_totals::Day;

/// The greatest limit, 999,999.
pub fn greatest_limit() -> Limit
    ensures { result ≡ 999999 }
{
    let Some(limit) = Limit::from_number(999_999) else {
        unreachable!();
    };
    limit
}

/// The first business day that there is, 2000-01-01.
pub fn first_day_of_all() -> Day
    ensures { result ≡ 0 }
{
    let Some(day) = Day::from_number(0) else {
        unreachable!();
    };
    day
}
