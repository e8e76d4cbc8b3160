//! What a statement is asked of.

ghost use Rattle.std.specs.Prelude.{◌≡◌, ◌++◌, [], IfOk, OnOk, is_ok};
ghost use Rattle.std.specs.List.{cons_option, filter_map, list_any};
ghost use Rattle.std.specs.Str.{bytes_eq};
ghost use Rattle.acq_book.specs.Calls.{Looks};
ghost use Rattle.acq_book.specs.Lookups.{merchant_at};
ghost use Rattle.acq_book.specs.Promise.{CountsFault};
ghost use Rattle.acq_reports.specs.Faults.{CountsStore, failed_writes, is_settled};
ghost use Rattle.acq_reports.specs.Writing.{Allows};
ghost use Rattle.acq_statement.specs.Claims.{claim_in};
ghost use Rattle.acq_statement.specs.Span.{asked_merchants, is_asked, statement_refusal};

use crate::claim::{Claim, day_reconciled};
use crate::days::Days;
use crate::enrolled::enrolled_merchants;
use acq_book::{Book, BookFault};
use acq_core::{Merchant, MerchantId, Request, Status};
use acq_reports::ReportFault;
use std::alloc::{AllocError, Global};

/// The merchants that are asked for, all where none is, and the days.
#[derive(Clone, Copy)]
pub(crate) struct Asked<'a> {
    pub merchants: &'a [MerchantId],
    pub days: Days,
}

impl Asked<'_> {
    /// The claim of a request, if it is one that is asked for.
    pub fn claim_in(&self, alloc: Global, row: &Request) -> Result<Option<Claim>, AllocError>
        ensures { IfOk result (λ claim.
            claim ≡ claim_in self.now.merchants.now self.now.days row.now) }
    {
        if !matches!(row.status, Status::Reconciled) {
            return Ok(None);
        }
        match day_reconciled(row) {
            Some(day) if self.days.is_within(day) && is_asked(self.merchants, row.key.merchant) => {
                let claim = Claim::on(alloc, row, day)?;
                Ok(Some(claim))
            }
            _ => Ok(None),
        }
    }
}

fn is_asked(asked: &[MerchantId], merchant: MerchantId) -> bool
    ensures { result ≡ is_asked asked.now merchant }
{
    if asked.is_empty() {
        return true;
    }
    is_one_of(asked, merchant)
}

fn is_one_of(asked: &[MerchantId], merchant: MerchantId) -> bool
    ensures { result ≡ list_any (λ one. bytes_eq one merchant) asked.now }
{
    asked.iter().any(|one| *one == merchant)
}

/// Refuses merchants of which one isn't enrolled.
#[tactic(auto, using(acq_reports::proofs::Chains::looks_more))]
pub(crate) fn check_asked<B: Book>(book: &mut B, asked: &[MerchantId]) -> Result<(), ReportFault>
    ensures refuses { B.is_honest book.new → B.is_open book.old
        → Allows (statement_refusal (B.tables book.old) asked.now) result }
    ensures unwritten { failed_writes result ≡ 0 }
    ensures looks { Looks B.Book book.old book.new (is_settled result) }
    ensures store { CountsStore result (B.failures book.old) (B.failures book.new) }
{
    for id in asked.iter() {
        if book.merchant(*id)?.is_none() {
            return Err(ReportFault::NoSuchMerchant);
        }
    }
    Ok(())
}

/// The merchants that are asked for, in that order, or all, in order of their bytes.
pub(crate) fn asked_merchants<B: Book>(
    alloc: Global,
    book: &mut B,
    asked: &[MerchantId],
) -> Result<Vec<Merchant>, BookFault>
    ensures rows { B.is_honest book.new → B.is_open book.old → IfOk result (λ rows.
        rows.items ≡ asked_merchants (B.tables book.old) asked.now) }
    ensures looks { Looks B.Book book.old book.new (is_ok result) }
    ensures store { CountsFault result (B.failures book.old) (B.failures book.new) }
{
    if asked.is_empty() {
        return enrolled_merchants(alloc, book);
    }
    named_merchants(alloc, book, asked)
}

/// Those of these merchants that are enrolled.
#[tactic(auto, using(acq_reports::proofs::Chains::looks_more))]
fn named_merchants<B: Book>(
    alloc: Global,
    book: &mut B,
    names: &[MerchantId],
) -> Result<Vec<Merchant>, BookFault>
    ensures rows { B.is_honest book.new → B.is_open book.old → IfOk result (λ rows.
        rows.items ≡ filter_map (merchant_at (B.tables book.old)) names.now) }
    ensures looks { Looks B.Book book.old book.new (is_ok result) }
    ensures store { CountsFault result (B.failures book.old) (B.failures book.new) }
{
    let mut merchants = Vec::new(alloc);
    for name in names.iter() {
        let found = book.merchant(*name)?;
        put_found(&mut merchants, found)?;
    }
    Ok(merchants)
}

fn put_found(merchants: &mut Vec<Merchant>, found: Option<Merchant>) -> Result<(), AllocError>
    ensures { OnOk result (merchants.new.items ≡ merchants.old.items ++ cons_option found []) }
{
    if let Some(merchant) = found {
        merchants.push(merchant)?;
    }
    Ok(())
}
