//! A statement of a merchant's day that is gathered slice by slice.

ghost use Rattle.std.specs.Prelude.{◌≡◌, ◌↔◌, ◌∷◌, [], true, None, is_ok, IfOk};
ghost use Rattle.acq_book.specs.Calls.{Looks};
ghost use Rattle.acq_book.specs.Promise.{CountsFault};
ghost use Rattle.acq_core.specs.Tables.{Tables};
ghost use Rattle.acq_reports.specs.Faults.{CountsStore, is_settled};
ghost use Rattle.acq_reports.specs.Writing.{Reports};
ghost use Rattle.acq_statement.specs.Gathered.{Asks, HasClaims, HasSums, IsGathered, only};
ghost use Rattle.acq_statement.specs.Statement.{statement_text};
ghost use Rattle.acq_statement.specs.TerminalTotals.{day_postings, sums_at_terminals};
ghost use Rattle.acq_statement.specs.TerminalTotals.{terminals_of};
ghost use Rattle.acq_book.specs.Lookups.{terminals_at};

use crate::asked::{Asked, asked_merchants};
use crate::claim::Claim;
use crate::claims::Claims;
use crate::currency_lines::CurrencyLines;
use crate::days::Days;
use crate::posted_sums::{PostedSums, sums_of_terminals};
use crate::statement::write_blocks;
use crate::statement_blocks::SummedBlock;
use crate::statement_form::StatementForm;
use crate::terminal_sums::{TerminalSums, terminals_of};
use crate::terminals::all_terminals;
use acq_book::{Book, BookFault};
use acq_core::MerchantId;
use acq_link::{MemorySink, Sink};
use acq_reports::{ReportFault, SLICE, goes_on};
use day_totals::Day;
use std::alloc::Global;

/// A statement of a merchant's day, which goes over a book's postings of that day and over its
/// requests slice by slice, while events are taken between the slices.
///
/// What it has gathered stays so, whatever events are taken: postings that come later have greater
/// numbers, and what a reconciliation claimed never changes. So its text is that of the tables at
/// which it is written.
#[derive(Drop)]
pub struct Gathering {
    merchant: MerchantId,
    day: Day,
    form: StatementForm,
    /// The sums of the terminals that posted, of the postings that were gone over.
    sums: Vec<TerminalSums>,
    /// The number of the last of these.
    number: u64,
    /// The claims of the merchant and day among the first requests.
    claims: Vec<Claim>,
    /// So many of the first requests were looked at for these.
    looked: u64,
    /// The last walk came to the end of the rows.
    is_at_end: bool,
}

impl Gathering {
    /// One that went over nothing yet.
    pub fn of(alloc: Global, merchant: MerchantId, day: Day, form: StatementForm) -> Gathering
        ensures asks { Asks merchant day form result }
        ensures fresh { (t : Tables) → IsGathered t result }
    {
        Gathering {
            merchant,
            day,
            form,
            sums: Vec::new(alloc),
            number: 0,
            claims: Vec::new(alloc),
            looked: 0,
            is_at_end: false,
        }
    }

    /// Whether it is of this merchant's day, in this form.
    pub fn is_for(&self, merchant: MerchantId, day: Day, form: StatementForm) -> bool
        ensures { result ≡ true ↔ Asks merchant day form self.now }
    {
        self.merchant == merchant && self.day == day && self.form == form
    }

    /// Whether it has gone over all the rows that there were in its last slice.
    pub fn is_done(&self) -> bool {
        self.is_at_end
    }

    /// Goes on by a slice, of some seventy rows; where it is done, over the rows that came since.
    #[tactic(auto, using(acq_book::proofs::Chains::looks_more))]
    pub fn go_on<B: Book>(&self, alloc: Global, book: &mut B) -> Result<Gathering, BookFault>
        ensures goes { B.is_honest book.new → B.is_open book.old
            → IsGathered (B.tables book.old) self.now
            → IfOk result (λ next. IsGathered (B.tables book.old) next) }
        ensures asks { IfOk result (Asks self.now.merchant self.now.day self.now.form) }
        ensures looks { Looks B.Book book.old book.new (is_ok result) }
        ensures store { CountsFault result (B.failures book.old) (B.failures book.new) }
    {
        let summed = self.sum(alloc, book, Some(SLICE))?;
        if !summed.is_at_end {
            return Ok(summed);
        }
        summed.claim(alloc, book, Some(summed.looked.saturating_add(SLICE)))
    }

    /// The statement of the merchant's day at this moment: the text of [`write_statement`]. Rows
    /// that it has not gone over are gone over first, which are few where it is done. The terminals
    /// of all merchants are gone over, too.
    ///
    /// [`write_statement`]: crate::write_statement
    #[tactic(auto, using(acq_book::proofs::Chains::looks_more))]
    pub fn text<B: Book>(&self, alloc: Global, book: &mut B) -> Result<Vec<u8>, BookFault>
        ensures text { B.is_honest book.new → B.is_open book.old
            → IsGathered (B.tables book.old) self.now → IfOk result (λ text. text.items
            ≡ statement_text (B.tables book.old) (self.now.merchant ∷ []) (only self.now.day)
            self.now.form) }
        ensures looks { Looks B.Book book.old book.new (is_ok result) }
        ensures store { CountsFault result (B.failures book.old) (B.failures book.new) }
    {
        let summed = self.sum(alloc, book, None)?;
        let whole = summed.claim(alloc, book, None)?;
        whole.written(alloc, book)
    }

    /// The statement, where all rows were gone over.
    #[tactic(auto, using(acq_book::proofs::Chains::looks_more))]
    fn written<B: Book>(&self, alloc: Global, book: &mut B) -> Result<Vec<u8>, BookFault>
        ensures text { B.is_honest book.new → B.is_open book.old
            → HasSums (B.tables book.old) self.now → HasClaims (B.tables book.old) self.now
            → IfOk result (λ text. text.items
            ≡ statement_text (B.tables book.old) (self.now.merchant ∷ []) (only self.now.day)
            self.now.form) }
        ensures looks { Looks B.Book book.old book.new (is_ok result) }
        ensures store { CountsFault result (B.failures book.old) (B.failures book.new) }
    {
        let mut text = MemorySink::new(alloc);
        match self.write(alloc, book, &mut text) {
            Ok(()) => {}
            Err(ReportFault::Store) => return Err(BookFault::Store),
            // Nothing is written but memory, so this is memory alone.
            Err(_) => return Err(BookFault::Memory),
        }
        Ok(Vec::from_slice(alloc, text.as_bytes())?)
    }

    /// Writes the statement, where all rows were gone over.
    #[tactic(auto, using(acq_reports::proofs::Chains::looks_more))]
    fn write<B: Book, K: Sink>(
        &self,
        alloc: Global,
        book: &mut B,
        writer: &mut K,
    ) -> Result<(), ReportFault>
        ensures text { B.is_honest book.new → B.is_open book.old
            → HasSums (B.tables book.old) self.now → HasClaims (B.tables book.old) self.now
            → Reports None (statement_text (B.tables book.old) (self.now.merchant ∷ [])
            (only self.now.day) self.now.form) (K.sent writer.old) (K.sent writer.new) result }
        ensures looks { Looks B.Book book.old book.new (is_settled result) }
        ensures store { CountsStore result (B.failures book.old) (B.failures book.new) }
    {
        let named = [self.merchant];
        let merchants = asked_merchants(alloc, book, &named)?;
        let sums = self.terminals(alloc, book)?;
        let blocks = SummedBlock {
            form: self.form,
            day: self.day,
            sums: sums.as_slice(),
            claims: self.claims.as_slice(),
        };
        let days = [self.day];
        let currencies = CurrencyLines {
            form: self.form,
            merchants: merchants.as_slice(),
            days: &days,
        };
        write_blocks(alloc, book, &blocks, &currencies, writer)
    }

    /// The sums of the merchant's terminals, where all postings were gone over.
    fn terminals<B: Book>(
        &self,
        alloc: Global,
        book: &mut B,
    ) -> Result<Vec<TerminalSums>, BookFault>
        ensures sums { B.is_honest book.new → B.is_open book.old
            → HasSums (B.tables book.old) self.now → IfOk result (λ sums. sums.items
            ≡ sums_at_terminals (day_postings (B.tables book.old) self.now.merchant self.now.day)
            (terminals_of self.now.merchant (terminals_at (B.tables book.old)))) }
        ensures looks { Looks B.Book book.old book.new (is_ok result) }
        ensures store { CountsFault result (B.failures book.old) (B.failures book.new) }
    {
        let all = all_terminals(alloc, book)?;
        let own = terminals_of(alloc, all.as_slice(), self.merchant)?;
        Ok(sums_of_terminals(alloc, self.sums.as_slice(), own.as_slice())?)
    }

    /// Goes over the postings behind those that were gone over; to the last, or so many.
    fn sum<B: Book>(
        &self,
        alloc: Global,
        book: &mut B,
        end: Option<u64>,
    ) -> Result<Gathering, BookFault>
        ensures goes { B.is_honest book.new → B.is_open book.old
            → IsGathered (B.tables book.old) self.now
            → IfOk result (λ next. IsGathered (B.tables book.old) next) }
        ensures whole { B.is_honest book.new → B.is_open book.old
            → IsGathered (B.tables book.old) self.now → end ≡ None
            → IfOk result (λ next. HasSums (B.tables book.old) next) }
        ensures asks { IfOk result (Asks self.now.merchant self.now.day self.now.form) }
        ensures looks { Looks B.Book book.old book.new (is_ok result) }
        ensures store { CountsFault result (B.failures book.old) (B.failures book.new) }
    {
        let sums = Vec::from_slice(alloc, self.sums.as_slice())?;
        let claims = Vec::from_slice(alloc, self.claims.as_slice())?;
        let mut posted = PostedSums {
            sums,
            number: self.number,
            gone: 0,
            end,
            is_short: false,
        };
        book.walk_postings_above(self.merchant, self.day, self.number, &mut posted)?;
        if posted.is_short {
            return Err(BookFault::Memory);
        }
        let is_at_end = goes_on(posted.end, posted.gone);
        Ok(Gathering {
            merchant: self.merchant,
            day: self.day,
            form: self.form,
            sums: posted.sums,
            number: posted.number,
            claims,
            looked: self.looked,
            is_at_end,
        })
    }

    /// Goes over the requests behind those that were looked at; to the last, or up to one.
    fn claim<B: Book>(
        &self,
        alloc: Global,
        book: &mut B,
        end: Option<u64>,
    ) -> Result<Gathering, BookFault>
        ensures goes { B.is_honest book.new → B.is_open book.old
            → IsGathered (B.tables book.old) self.now
            → IfOk result (λ next. IsGathered (B.tables book.old) next) }
        ensures whole { B.is_honest book.new → B.is_open book.old
            → IsGathered (B.tables book.old) self.now → end ≡ None
            → IfOk result (λ next. HasClaims (B.tables book.old) next) }
        ensures sums { IfOk result (λ next. next.sums.items ≡ self.now.sums.items) }
        ensures asks { IfOk result (Asks self.now.merchant self.now.day self.now.form) }
        ensures looks { Looks B.Book book.old book.new (is_ok result) }
        ensures store { CountsFault result (B.failures book.old) (B.failures book.new) }
    {
        let sums = Vec::from_slice(alloc, self.sums.as_slice())?;
        let claims = Vec::from_slice(alloc, self.claims.as_slice())?;
        let merchants = [self.merchant];
        let mut claiming = Claims {
            alloc,
            asked: Asked {
                merchants: &merchants,
                days: Days {
                    first: self.day,
                    last: self.day,
                },
            },
            claims,
            looked: self.looked,
            end,
            is_short: false,
        };
        book.walk_requests_behind(self.looked, &mut claiming)?;
        if claiming.is_short {
            return Err(BookFault::Memory);
        }
        let is_at_end = goes_on(claiming.end, claiming.looked);
        Ok(Gathering {
            merchant: self.merchant,
            day: self.day,
            form: self.form,
            sums,
            number: self.number,
            claims: claiming.claims,
            looked: claiming.looked,
            is_at_end,
        })
    }
}
