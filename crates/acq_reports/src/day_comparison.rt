//! A comparison of a day's postings with its totals, slice by slice.

ghost use Rattle.std.specs.Prelude.{is_ok};
ghost use Rattle.acq_book.specs.Calls.{Looks};
ghost use Rattle.acq_book.specs.Promise.{CountsFault};

use crate::merchant_sums::MerchantSums;
use crate::names::merchant_names;
use crate::refusals::check_day;
use crate::report_fault::ReportFault;
use crate::slices::SLICE;
use crate::summed_merchant::SummedMerchant;
use acq_book::{Book, BookFault, Visit};
use acq_core::{MerchantId, Posting};
use day_totals::Day;
use std::alloc::{AllocError, Global};

/// A comparison of a day's postings with the totals that the book keeps of it, as `check_sums`
/// makes it at one moment, slice by slice, while events are taken between the slices: these leave
/// the postings and the totals of a day that is over as they are.
///
/// It decides no more than that all adds up. Of a day that isn't over, and where something differs,
/// it leaves what is to be told to `check_sums`.
#[derive(Drop)]
pub struct DayComparison {
    day: Day,
    stage: Stage,
}

/// How far a comparison came.
#[derive(Drop)]
enum Stage {
    /// Nothing is compared.
    Beginning,
    /// The postings of the merchants in front of this one are compared, and its own are summed up
    /// to a number.
    Summing(SummedMerchant),
    /// All postings are compared. Those of these merchants that have none are to be.
    Idle(Vec<MerchantId>),
    /// All adds up.
    AddsUp,
    /// The day isn't over, or something differs.
    Undecided,
}

impl DayComparison {
    /// One that compared nothing yet.
    pub fn of(day: Day) -> DayComparison {
        DayComparison {
            day,
            stage: Stage::Beginning,
        }
    }

    /// Whether it has nothing more to compare.
    pub fn is_done(&self) -> bool {
        matches!(self.stage, Stage::AddsUp | Stage::Undecided)
    }

    /// Whether it is of this day, and all of that is compared and adds up.
    pub fn adds_up(&self, day: Day) -> bool {
        self.day == day && matches!(self.stage, Stage::AddsUp)
    }

    /// Goes on by a slice, of some seventy rows.
    #[tactic(auto, using(acq_book::proofs::Chains::looks_more))]
    pub fn go_on<B: Book>(&self, alloc: Global, book: &mut B) -> Result<DayComparison, BookFault>
        ensures looks { Looks B.Book book.old book.new (is_ok result) }
        ensures store { CountsFault result (B.failures book.old) (B.failures book.new) }
    {
        let stage = match &self.stage {
            Stage::Beginning => begin(alloc, book, self.day)?,
            Stage::Summing(summed) => sum_on(alloc, book, self.day, summed)?,
            Stage::Idle(names) => compare_idle(alloc, book, self.day, names.as_slice())?,
            Stage::AddsUp => Stage::AddsUp,
            Stage::Undecided => Stage::Undecided,
        };
        Ok(DayComparison {
            day: self.day,
            stage,
        })
    }
}

/// The first slice, of a day that is over.
#[tactic(auto, using(acq_book::proofs::Chains::looks_more))]
fn begin<B: Book>(alloc: Global, book: &mut B, day: Day) -> Result<Stage, BookFault>
    ensures looks { Looks B.Book book.old book.new (is_ok result) }
    ensures store { CountsFault result (B.failures book.old) (B.failures book.new) }
{
    match check_day(book, day) {
        Ok(()) => {}
        Err(ReportFault::Store) => return Err(BookFault::Store),
        Err(ReportFault::Memory) => return Err(BookFault::Memory),
        Err(_) => return Ok(Stage::Undecided),
    }
    let mut slice = SummedSlice::new(alloc);
    book.walk_postings(day, &mut slice)?;
    slice.compare(alloc, book, day)
}

/// The next slice, behind the postings of a merchant that are summed.
#[tactic(auto, using(acq_book::proofs::Chains::looks_more))]
fn sum_on<B: Book>(
    alloc: Global,
    book: &mut B,
    day: Day,
    summed: &SummedMerchant,
) -> Result<Stage, BookFault>
    ensures looks { Looks B.Book book.old book.new (is_ok result) }
    ensures store { CountsFault result (B.failures book.old) (B.failures book.new) }
{
    let mut slice = SummedSlice::behind(alloc, *summed)?;
    book.walk_postings_above(summed.merchant, day, summed.number, &mut slice)?;
    if slice.wants_more() {
        book.walk_postings_behind(summed.merchant, day, &mut slice)?;
    }
    slice.compare(alloc, book, day)
}

/// The next of the merchants that may have no posting: those that have none have no totals either.
#[tactic(auto, using(acq_book::proofs::Chains::looks_more))]
fn compare_idle<B: Book>(
    alloc: Global,
    book: &mut B,
    day: Day,
    names: &[MerchantId],
) -> Result<Stage, BookFault>
    ensures looks { Looks B.Book book.old book.new (is_ok result) }
    ensures store { CountsFault result (B.failures book.old) (B.failures book.new) }
{
    let first = names.len().min(SLICE as usize);
    for name in names[..first].iter() {
        if !is_idle(book, day, *name)? {
            continue;
        }
        let totals = book.totals(*name, day)?;
        if MerchantSums::of(&totals) != MerchantSums::none() {
            return Ok(Stage::Undecided);
        }
    }
    if first == names.len() {
        return Ok(Stage::AddsUp);
    }
    Ok(Stage::Idle(Vec::from_slice(alloc, &names[first..])?))
}

/// Whether a merchant has no posting of a day.
fn is_idle<B: Book>(book: &mut B, day: Day, merchant: MerchantId) -> Result<bool, BookFault>
    ensures looks { Looks B.Book book.old book.new (is_ok result) }
    ensures store { CountsFault result (B.failures book.old) (B.failures book.new) }
{
    let mut first = FirstPosting { is_there: false };
    book.walk_postings_above(merchant, day, 0, &mut first)?;
    Ok(!first.is_there)
}

/// The sums of the postings that a slice goes over, by merchant.
#[derive(Drop)]
struct SummedSlice {
    /// In order; of the last one there may be more postings.
    merchants: Vec<SummedMerchant>,
    /// How many postings were gone over.
    gone: u64,
    /// Memory ran out.
    is_short: bool,
}

impl SummedSlice {
    /// None yet.
    fn new(alloc: Global) -> SummedSlice {
        SummedSlice {
            merchants: Vec::new(alloc),
            gone: 0,
            is_short: false,
        }
    }

    /// None yet behind the postings of a merchant that are summed.
    fn behind(alloc: Global, summed: SummedMerchant) -> Result<SummedSlice, AllocError> {
        let mut slice = SummedSlice::new(alloc);
        slice.merchants.push(summed)?;
        Ok(slice)
    }

    /// Whether the slice is to have more.
    fn wants_more(&self) -> bool {
        !self.is_short && self.gone < SLICE
    }

    /// Adds a posting.
    fn add(&mut self, number: u64, posting: &Posting) -> Result<(), AllocError> {
        let summed = match self.merchants.pop() {
            None => SummedMerchant::of(number, posting),
            Some(last) if last.merchant == posting.merchant => last.with(number, posting),
            Some(last) => {
                self.merchants.push(last)?;
                SummedMerchant::of(number, posting)
            }
        };
        self.merchants.push(summed)?;
        Ok(())
    }

    /// Compares the sums of the merchants whose postings were all gone over with their totals, and
    /// returns how far the comparison came so.
    #[tactic(auto, using(acq_book::proofs::Chains::looks_more))]
    fn compare<B: Book>(&self, alloc: Global, book: &mut B, day: Day) -> Result<Stage, BookFault>
        ensures looks { Looks B.Book book.old book.new (is_ok result) }
        ensures store { CountsFault result (B.failures book.old) (B.failures book.new) }
    {
        if self.is_short {
            return Err(BookFault::Memory);
        }
        let merchants = self.merchants.as_slice();
        match merchants.split_last() {
            Some((last, whole)) if !self.wants_more() => {
                if !add_up(book, day, whole)? {
                    return Ok(Stage::Undecided);
                }
                Ok(Stage::Summing(*last))
            }
            _ => {
                if !add_up(book, day, merchants)? {
                    return Ok(Stage::Undecided);
                }
                Ok(Stage::Idle(merchant_names(alloc, book)?))
            }
        }
    }
}

impl Visit<(u64, Posting)> for SummedSlice {
    ghost use Rattle.acq_reports.specs.Slices.{Whatever};

    ghost sees = { Whatever };

    fn row(&mut self, row: &(u64, Posting)) -> bool {
        match self.add(row.0, &row.1) {
            Ok(()) => {
                self.gone = self.gone.saturating_add(1);
                self.gone < SLICE
            }
            Err(AllocError) => {
                self.is_short = true;
                false
            }
        }
    }
}

/// Whether the sums of these merchants are their totals of a day.
#[tactic(auto, using(acq_book::proofs::Chains::looks_more))]
fn add_up<B: Book>(book: &mut B, day: Day, merchants: &[SummedMerchant]) -> Result<bool, BookFault>
    ensures looks { Looks B.Book book.old book.new (is_ok result) }
    ensures store { CountsFault result (B.failures book.old) (B.failures book.new) }
{
    for summed in merchants.iter() {
        let totals = book.totals(summed.merchant, day)?;
        if MerchantSums::of(&totals) != summed.sums {
            return Ok(false);
        }
    }
    Ok(true)
}

/// Whether a posting was handed over.
#[derive(Drop)]
struct FirstPosting {
    is_there: bool,
}

impl Visit<(u64, Posting)> for FirstPosting {
    ghost use Rattle.acq_reports.specs.Slices.{Whatever};

    ghost sees = { Whatever };

    fn row(&mut self, _: &(u64, Posting)) -> bool {
        self.is_there = true;
        false
    }
}
