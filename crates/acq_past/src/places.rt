//! Where rows stand.

use crate::book_rows::BookRows;
use acq_core::{MerchantId, Reference, RequestKey};
use day_totals::Day;
use indexmap::IndexMap;
use std::alloc::{AllocError, Global};
use std::hash::{Hash, RandomState};

/// A merchant's request with a reference.
#[derive(Clone, Copy, PartialEq, Eq, Hash)]
struct Subject {
    merchant: MerchantId,
    reference: Reference,
}

/// What was posted of it: itself or its completion, or a reversal.
#[derive(Clone, Copy, PartialEq, Eq, Hash)]
struct PostingSubject {
    of: Subject,
    reverses: bool,
}

/// A number of a merchant and day.
#[derive(Clone, Copy, PartialEq, Eq, Hash)]
struct DayNumber {
    merchant: MerchantId,
    day: u32,
    number: u64,
}

/// The places of requests and postings, found by hash. Of two under one key it is that of the first.
#[derive(Drop)]
pub(crate) struct Places {
    requests: IndexMap<RequestKey, usize, RandomState>,
    admitted: IndexMap<Subject, usize, RandomState>,
    postings: IndexMap<PostingSubject, usize, RandomState>,
    numbered: IndexMap<DayNumber, usize, RandomState>,
}

impl Places {
    /// Those of these rows.
    pub fn of(alloc: Global, keys: RandomState, rows: &BookRows) -> Result<Places, AllocError> {
        let mut places = Places {
            requests: IndexMap::with_hasher(alloc, keys),
            admitted: IndexMap::with_hasher(alloc, keys),
            postings: IndexMap::with_hasher(alloc, keys),
            numbered: IndexMap::with_hasher(alloc, keys),
        };
        places.note_requests(rows)?;
        places.note_postings(rows)?;
        Ok(places)
    }

    fn note_requests(&mut self, rows: &BookRows) -> Result<(), AllocError> {
        for (place, row) in rows.requests.iter().enumerate() {
            note(&mut self.requests, row.key, place)?;
            if let Some(reference) = row.reference {
                let merchant = row.key.merchant;
                let subject = Subject {
                    merchant,
                    reference,
                };
                note(&mut self.admitted, subject, place)?;
            }
        }
        Ok(())
    }

    fn note_postings(&mut self, rows: &BookRows) -> Result<(), AllocError> {
        for (place, row) in rows.postings.iter().enumerate() {
            let subject = subject_of(row.merchant, row.reference, row.reverses);
            note(&mut self.postings, subject, place)?;
            let number = day_number(row.merchant, row.day, row.number);
            note(&mut self.numbered, number, place)?;
        }
        Ok(())
    }

    /// The request with a key.
    pub fn request(&self, key: &RequestKey) -> Option<usize> {
        self.requests.get(key).copied()
    }

    /// A merchant's admitted request with a reference.
    pub fn admitted(&self, merchant: MerchantId, reference: Reference) -> Option<usize> {
        let subject = Subject {
            merchant,
            reference,
        };
        self.admitted.get(&subject).copied()
    }

    /// What was posted under a reference.
    pub fn posting(
        &self,
        merchant: MerchantId,
        reference: Reference,
        reverses: bool,
    ) -> Option<usize> {
        let subject = subject_of(merchant, reference, reverses);
        self.postings.get(&subject).copied()
    }

    /// The posting with a number of a merchant and day.
    pub fn numbered(&self, merchant: MerchantId, day: Day, number: u64) -> Option<usize> {
        self.numbered
            .get(&day_number(merchant, day, number))
            .copied()
    }
}

fn subject_of(merchant: MerchantId, reference: Reference, reverses: bool) -> PostingSubject {
    PostingSubject {
        of: Subject {
            merchant,
            reference,
        },
        reverses,
    }
}

fn day_number(merchant: MerchantId, day: Day, number: u64) -> DayNumber {
    DayNumber {
        merchant,
        day: day.number(),
        number,
    }
}

/// Notes a place under a key, unless there is one.
fn note<K: Eq + Hash + Copy + Drop>(
    places: &mut IndexMap<K, usize, RandomState>,
    key: K,
    place: usize,
) -> Result<(), AllocError> {
    if places.get(&key).is_none() {
        places.insert(key, place)?;
    }
    Ok(())
}
