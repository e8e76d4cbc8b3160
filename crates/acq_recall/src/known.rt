//! What is recalled of what is wanted.

ghost use Rattle.std.specs.Prelude.{◌≡◌, false, true};
ghost use Rattle.acq_core.specs.Known.{nothing};
ghost use Rattle.std.specs.Option.{option_or};
ghost use Rattle.acq_recall.specs.Known.{asks_no_more, filled, rest_of, unless_known};
ghost use Rattle.acq_recall.specs.Known.{without_merchant};

use acq_core::{AdmittedCount, Looked, Merchant, Request, UsedCount, Wanted};
use card_no::Range;

/// What is recalled of what is wanted: each part that is known.
#[derive(Drop)]
pub(crate) struct Known {
    pub(crate) merchant: Option<Merchant>,
    /// The merchant has the terminal; else it isn't known.
    pub(crate) has_terminal: bool,
    pub(crate) referred: Option<Request>,
    pub(crate) range: Option<Range>,
    pub(crate) admitted: Option<AdmittedCount>,
    pub(crate) used: Option<UsedCount>,
}

impl Known {
    /// What is left to look up.
    pub fn rest(&self, wanted: &Wanted) -> Wanted
        ensures { result ≡ rest_of self.now wanted.now }
    {
        let rest = Wanted {
            terminal: if self.has_terminal {
                None
            } else {
                wanted.terminal
            },
            reference: unless_known(&self.referred, wanted.reference),
            prefix: unless_known(&self.range, wanted.prefix),
            admitted: self.admitted.is_none() && wanted.admitted,
            used_day: unless_known(&self.used, wanted.used_day),
            ..*wanted
        };
        without_merchant(self.merchant.is_some(), rest)
    }

    /// Puts what is known in place of what wasn't looked up.
    pub fn fill(self, looked: &mut Looked)
        ensures { looked.new ≡ filled self looked.old }
    {
        looked.has_terminal = self.has_terminal || looked.has_terminal;
        looked.admitted = self.admitted.unwrap_or(looked.admitted);
        looked.used = self.used.unwrap_or(looked.used);
        looked.merchant = self.merchant.or(looked.merchant);
        put(&mut looked.referred, self.referred);
        put(&mut looked.range, self.range);
    }
}

/// What is wanted, if it isn't known.
fn unless_known<A, B: Copy>(known: &Option<A>, wanted: Option<B>) -> Option<B>
    ensures { result ≡ unless_known known.now wanted }
{
    match known {
        Some(_) => None,
        None => wanted,
    }
}

/// Without the merchant, if its row is known and nothing else is wanted of it.
fn without_merchant(is_known: bool, wanted: Wanted) -> Wanted
    ensures { result ≡ without_merchant is_known wanted }
{
    if is_known && asks_no_more(&wanted) {
        Wanted {
            merchant: None,
            ..wanted
        }
    } else {
        wanted
    }
}

/// Whether nothing is wanted of the merchant but its own row.
fn asks_no_more(wanted: &Wanted) -> bool
    ensures { result ≡ asks_no_more wanted.now }
{
    wanted.terminal.is_none()
        && wanted.reference.is_none()
        && !wanted.admitted
        && wanted.used_day.is_none()
        && wanted.totals_day.is_none()
}

/// Whether nothing is left to look up but the book's own row.
pub(crate) fn asks_nothing(wanted: &Wanted) -> bool
    ensures { result ≡ true → wanted.now ≡ nothing }
{
    wanted.merchant.is_none()
        && asks_no_more(wanted)
        && wanted.key.is_none()
        && wanted.original.is_none()
        && wanted.prefix.is_none()
        && wanted.bounds.is_none()
}

/// Puts what is known, if it is, in its place.
fn put<T: Drop>(place: &mut Option<T>, known: Option<T>)
    ensures { place.new ≡ option_or known place.old }
{
    if known.is_some() {
        *place = known;
    }
}
