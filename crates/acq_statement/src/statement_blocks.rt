//! The blocks of a statement.

ghost use Rattle.acq_statement.specs.Parts.{PutsPart};

use crate::block::Block;
use crate::claim::Claim;
use crate::claims::claims_of;
use crate::lines::DayLines;
use crate::part::{Part, put_each};
use crate::piece::Piece;
use crate::statement_form::StatementForm;
use crate::terminal_sums::{TerminalSums, terminal_sums, terminals_of};
use acq_book::{Book, BookFault};
use acq_core::{Merchant, Terminal};
use acq_link::Sink;
use acq_reports::Report;
use day_totals::Day;
use std::alloc::AllocError;

/// The blocks of each merchant's days, over the terminals and the claims of all merchants.
#[derive(Clone, Copy)]
pub(crate) struct MerchantBlocks<'a> {
    pub form: StatementForm,
    pub terminals: &'a [Terminal],
    pub claims: &'a [Claim],
    pub days: &'a [Day],
}

impl Part<Merchant> for MerchantBlocks<'_> {
    ghost use Rattle.acq_statement.specs.Statement.{merchant_blocks};

    ghost text = { λ part merchant t. merchant_blocks part.form part.terminals.now part.claims.now t
        part.days.now merchant };

    fn put<B: Book, K: Sink>(
        &self,
        book: &mut B,
        item: &Merchant,
        report: &mut Report<'_, K>,
    ) -> Result<bool, BookFault> {
        let alloc = report.alloc();
        let terminals = match terminals_of(alloc, self.terminals, item.id) {
            Ok(terminals) => terminals,
            Err(AllocError) => return Err(BookFault::Memory),
        };
        let claims = match claims_of(alloc, item.id, self.claims) {
            Ok(claims) => claims,
            Err(AllocError) => return Err(BookFault::Memory),
        };
        let part = DayBlocks {
            form: self.form,
            merchant: *item,
            terminals: terminals.as_slice(),
            claims: claims.as_slice(),
        };
        put_each(book, self.days, &part, report)
    }
}

/// The blocks of a merchant's days, over its terminals and claims.
#[derive(Clone, Copy)]
struct DayBlocks<'a> {
    form: StatementForm,
    merchant: Merchant,
    terminals: &'a [Terminal],
    claims: &'a [Claim],
}

impl Part<Day> for DayBlocks<'_> {
    ghost use Rattle.acq_statement.specs.Statement.{block_text};

    ghost text = { λ part day t. block_text part.form part.terminals.now part.claims.now t
        part.merchant day };

    fn put<B: Book, K: Sink>(
        &self,
        book: &mut B,
        item: &Day,
        report: &mut Report<'_, K>,
    ) -> Result<bool, BookFault> {
        let merchant = self.merchant.id;
        let sums = terminal_sums(report.alloc(), book, self.terminals, merchant, *item)?;
        let block = Block {
            lines: DayLines {
                form: self.form,
                merchant: self.merchant,
                day: *item,
            },
            sums: sums.as_slice(),
            claims: self.claims,
        };
        put_each(book, &Piece::ALL, &block, report)
    }
}

/// The block of a day of a merchant whose terminals' sums are at hand, over the claims of all
/// merchants.
#[derive(Clone, Copy)]
pub(crate) struct SummedBlock<'a> {
    pub form: StatementForm,
    pub day: Day,
    pub sums: &'a [TerminalSums],
    pub claims: &'a [Claim],
}

impl Part<Merchant> for SummedBlock<'_> {
    ghost use Rattle.acq_statement.specs.Claims.{claims_of};
    ghost use Rattle.acq_statement.specs.Statement.{block_of};

    ghost text = { λ part merchant t. block_of part.form part.sums.now
        (claims_of merchant.id part.claims.now) t merchant part.day };

    fn put<B: Book, K: Sink>(
        &self,
        book: &mut B,
        item: &Merchant,
        report: &mut Report<'_, K>,
    ) -> Result<bool, BookFault> {
        let claims = match claims_of(report.alloc(), item.id, self.claims) {
            Ok(claims) => claims,
            Err(AllocError) => return Err(BookFault::Memory),
        };
        let block = Block {
            lines: DayLines {
                form: self.form,
                merchant: *item,
                day: self.day,
            },
            sums: self.sums,
            claims: claims.as_slice(),
        };
        put_each(book, &Piece::ALL, &block, report)
    }
}
