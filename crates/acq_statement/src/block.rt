//! The block of a merchant's day.

ghost use Rattle.std.specs.Prelude.{flat_map};
ghost use Rattle.acq_statement.specs.Lines.{claim_lines, terminal_line};
ghost use Rattle.acq_statement.specs.Parts.{PutsPart};
ghost use Rattle.acq_statement.specs.Statement.{piece_text};

use crate::claim::Claim;
use crate::claims::claims_on;
use crate::lines::DayLines;
use crate::part::{Part, put_each};
use crate::piece::Piece;
use crate::terminal_sums::TerminalSums;
use acq_book::{Book, BookFault};
use acq_link::Sink;
use acq_reports::Report;
use std::alloc::AllocError;

/// The block of a merchant's day, over the sums of the merchant's terminals, and its claims.
#[derive(Clone, Copy)]
pub(crate) struct Block<'a> {
    pub lines: DayLines,
    pub sums: &'a [TerminalSums],
    pub claims: &'a [Claim],
}

impl Part<Piece> for Block<'_> {
    ghost use Rattle.acq_statement.specs.Statement.{piece_text};

    ghost text = { λ part piece t. piece_text part.lines.form part.sums.now part.claims.now t
        part.lines.merchant part.lines.day piece };

    fn put<B: Book, K: Sink>(
        &self,
        book: &mut B,
        item: &Piece,
        report: &mut Report<'_, K>,
    ) -> Result<bool, BookFault> {
        match *item {
            Piece::Title => Ok(report.put_made(self.lines.title(report.alloc()))),
            Piece::Terminals => self.put_terminals(book, report),
            Piece::Total => self.put_total(book, report),
            Piece::Claims => self.put_claims(book, report),
            Piece::Owed => self.put_owed(book, report),
        }
    }
}

impl Block<'_> {
    ghost use Rattle.acq_statement.specs.declared.piece.Piece.TheVariants.{Terminals, Total};
    ghost use Rattle.acq_statement.specs.declared.piece.Piece.TheVariants.{Claims, Owed};

    fn put_terminals<B: Book, K: Sink>(
        &self,
        book: &mut B,
        report: &mut Report<'_, K>,
    ) -> Result<bool, BookFault>
        ensures { PutsPart B.Book K.sent K.failures (λ t. piece_text self.now.lines.form
            self.now.sums.now self.now.claims.now t self.now.lines.merchant
            self.now.lines.day Terminals) book.old book.new report.old report.new result }
    {
        let part = TerminalLine { lines: self.lines };
        put_each(book, self.sums, &part, report)
    }

    fn put_total<B: Book, K: Sink>(
        &self,
        book: &mut B,
        report: &mut Report<'_, K>,
    ) -> Result<bool, BookFault>
        ensures { PutsPart B.Book K.sent K.failures (λ t. piece_text self.now.lines.form
            self.now.sums.now self.now.claims.now t self.now.lines.merchant
            self.now.lines.day Total) book.old book.new report.old report.new result }
    {
        let totals = book.totals(self.lines.merchant.id, self.lines.day)?;
        Ok(report.put_made(self.lines.total(report.alloc(), &totals)))
    }

    fn put_claims<B: Book, K: Sink>(
        &self,
        book: &mut B,
        report: &mut Report<'_, K>,
    ) -> Result<bool, BookFault>
        ensures { PutsPart B.Book K.sent K.failures (λ t. piece_text self.now.lines.form
            self.now.sums.now self.now.claims.now t self.now.lines.merchant
            self.now.lines.day Claims) book.old book.new report.old report.new result }
    {
        let claims = match claims_on(report.alloc(), self.lines.day, self.claims) {
            Ok(claims) => claims,
            Err(AllocError) => return Err(BookFault::Memory),
        };
        let part = ClaimLines { lines: self.lines };
        put_each(book, claims.as_slice(), &part, report)
    }

    fn put_owed<B: Book, K: Sink>(
        &self,
        book: &mut B,
        report: &mut Report<'_, K>,
    ) -> Result<bool, BookFault>
        ensures { PutsPart B.Book K.sent K.failures (λ t. piece_text self.now.lines.form
            self.now.sums.now self.now.claims.now t self.now.lines.merchant
            self.now.lines.day Owed) book.old book.new report.old report.new result }
    {
        let totals = book.totals(self.lines.merchant.id, self.lines.day)?;
        Ok(report.put_made(self.lines.owed(report.alloc(), &totals)))
    }
}

/// The line of a terminal.
#[derive(Clone, Copy)]
struct TerminalLine {
    lines: DayLines,
}

impl Part<TerminalSums> for TerminalLine {
    ghost use Rattle.acq_statement.specs.Lines.{terminal_line};

    ghost text = { λ part item t.
        terminal_line part.lines.form part.lines.merchant part.lines.day item };

    fn put<B: Book, K: Sink>(
        &self,
        book: &mut B,
        item: &TerminalSums,
        report: &mut Report<'_, K>,
    ) -> Result<bool, BookFault> {
        Ok(report.put_made(self.lines.terminal(report.alloc(), item)))
    }
}

/// The lines of a reconciliation.
#[derive(Clone, Copy)]
struct ClaimLines {
    lines: DayLines,
}

impl Part<Claim> for ClaimLines {
    ghost use Rattle.acq_statement.specs.Lines.{claim_lines};

    ghost text = { λ part item t.
        claim_lines part.lines.form part.lines.merchant part.lines.day item };

    fn put<B: Book, K: Sink>(
        &self,
        book: &mut B,
        item: &Claim,
        report: &mut Report<'_, K>,
    ) -> Result<bool, BookFault> {
        if !report.put_made(self.lines.claimed(report.alloc(), item)) {
            return Ok(false);
        }
        Ok(report.put_made(self.lines.found(report.alloc(), item)))
    }
}
