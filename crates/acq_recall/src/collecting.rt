//! A visitor that keeps rows.

ghost use Rattle.std.specs.Prelude.{◌≡◌, ◌++◌, ◌∷◌, [], None, Some, IfSome, true, false};

use acq_book::Visit;
use acq_core::Request;
use std::alloc::Global;

/// Keeps copies of the requests that it is shown, up to a bound.
#[derive(Drop)]
pub(crate) struct Collecting {
    alloc: Global,
    most: usize,
    rows: Vec<Request>,
    /// Whether all that were shown are kept.
    is_whole: bool,
}

impl Collecting {
    /// It has seen nothing, and keeps so many at most.
    pub fn new(alloc: Global, most: usize) -> Collecting
        ensures rows { result.rows.items ≡ [] }
        ensures whole { result.is_whole ≡ true }
    {
        Collecting {
            alloc,
            most,
            rows: Vec::new(alloc),
            is_whole: true,
        }
    }

    /// What was shown, if all of it was kept.
    pub fn into_rows(self) -> Option<Vec<Request>>
        ensures { IfSome result (λ rows. (rows ≡ self.rows) × (self.is_whole ≡ true)) }
    {
        if self.is_whole { Some(self.rows) } else { None }
    }

    fn keep(&mut self, row: &Request) -> bool
        ensures kept { result ≡ true → (self.new.rows.items ≡ self.old.rows.items ++ row.now ∷ [])
            × (self.new.is_whole ≡ self.old.is_whole) }
    {
        if self.rows.len() >= self.most {
            return false;
        }
        match row.copied(self.alloc) {
            Ok(copy) => self.rows.push(copy).is_ok(),
            Err(_) => false,
        }
    }
}

impl Visit<Request> for Collecting {
    ghost use Rattle.acq_recall.specs.Collected.{Keeps};

    ghost sees = { Keeps };

    fn row(&mut self, row: &Request) -> bool {
        if self.keep(row) {
            return true;
        }
        self.is_whole = false;
        false
    }
}
