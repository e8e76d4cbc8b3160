//! The claims of a book.

ghost use Rattle.std.specs.Prelude.{◌≡◌, is_ok, IfOk};
ghost use Rattle.acq_book.specs.Calls.{Looks};
ghost use Rattle.acq_book.specs.Promise.{CountsFault};
ghost use Rattle.acq_statement.specs.Claims.{claims_at, claims_of, claims_on};

use crate::asked::Asked;
use crate::claim::Claim;
use acq_book::{Book, BookFault, Visit};
use acq_core::{MerchantId, Request};
use acq_reports::goes_on;
use day_totals::Day;
use std::alloc::{AllocError, Global};

/// The claims among the requests that were handed over, up to a row.
#[derive(Drop)]
pub(crate) struct Claims<'a> {
    pub(crate) alloc: Global,
    pub(crate) asked: Asked<'a>,
    pub(crate) claims: Vec<Claim>,
    /// How many rows were looked at, with those before the walk.
    pub(crate) looked: u64,
    /// With so many the walk ends.
    pub(crate) end: Option<u64>,
    /// Memory ran out.
    pub(crate) is_short: bool,
}

impl Visit<Request> for Claims<'_> {
    ghost use Rattle.acq_statement.specs.ClaimRows.{ClaimsOne};

    ghost sees = { ClaimsOne };

    fn row(&mut self, row: &Request) -> bool {
        match self.add(row) {
            Ok(()) => goes_on(self.end, self.looked),
            Err(AllocError) => {
                self.is_short = true;
                false
            }
        }
    }
}

impl Claims<'_> {
    ghost use Rattle.std.specs.Prelude.{◌++◌, ◌+◌, [], OnOk};
    ghost use Rattle.std.specs.List.{cons_option};
    ghost use Rattle.acq_statement.specs.Claims.{claim_in};

    /// Keeps the claim of a request, if it is one that is asked for.
    fn add(&mut self, row: &Request) -> Result<(), AllocError>
        ensures claims { OnOk result (self.new.claims.items ≡ self.old.claims.items
            ++ cons_option (claim_in self.old.asked.merchants.now self.old.asked.days row.now) []) }
        ensures looked { OnOk result (self.new.looked ≡ self.old.looked + 1) }
        ensures end { self.new.end ≡ self.old.end }
        ensures asked { self.new.asked ≡ self.old.asked }
    {
        let Some(looked) = self.looked.checked_add(1) else {
            return Err(AllocError);
        };
        match self.asked.claim_in(self.alloc, row)? {
            Some(claim) => self.claims.push(claim)?,
            None => {}
        }
        self.looked = looked;
        Ok(())
    }
}

/// The claims of the merchants and days that are asked for, in the order in which they came.
pub(crate) fn asked_claims<B: Book>(
    alloc: Global,
    book: &mut B,
    asked: &Asked<'_>,
) -> Result<Vec<Claim>, BookFault>
    ensures claims { B.is_honest book.new → B.is_open book.old → IfOk result (λ claims.
        claims.items ≡ claims_at (B.tables book.old) asked.now.merchants.now asked.now.days) }
    ensures looks { Looks B.Book book.old book.new (is_ok result) }
    ensures store { CountsFault result (B.failures book.old) (B.failures book.new) }
{
    let mut seen = Claims {
        alloc,
        asked: Asked {
            merchants: asked.merchants,
            days: asked.days,
        },
        claims: Vec::new(alloc),
        looked: 0,
        end: None,
        is_short: false,
    };
    book.walk_requests_behind(0, &mut seen)?;
    if seen.is_short {
        return Err(BookFault::Memory);
    }
    Ok(seen.claims)
}

/// Those of a merchant.
pub(crate) fn claims_of(
    alloc: Global,
    merchant: MerchantId,
    claims: &[Claim],
) -> Result<Vec<Claim>, AllocError>
    ensures { IfOk result (λ found. found.items ≡ claims_of merchant claims.now) }
{
    claims
        .iter()
        .copied()
        .filter(|claim| claim.merchant == merchant)
        .collect::<Vec<Claim>>(alloc)
}

/// Those of a day.
pub(crate) fn claims_on(alloc: Global, day: Day, claims: &[Claim]) -> Result<Vec<Claim>, AllocError>
    ensures { IfOk result (λ found. found.items ≡ claims_on day claims.now) }
{
    claims
        .iter()
        .copied()
        .filter(|claim| claim.day.number() == day.number())
        .collect::<Vec<Claim>>(alloc)
}
