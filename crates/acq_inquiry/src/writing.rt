//! What became of requests, written.

ghost use Rattle.std.specs.Prelude.{◌≡◌, ◌≢◌, ◌+◌, Err, None};
ghost use Rattle.acq_book.specs.Calls.{Looks};
ghost use Rattle.acq_reports.specs.Faults.{CountsStore, failed_writes, is_settled};
ghost use Rattle.acq_reports.specs.Refusals.{merchant_refusal};
ghost use Rattle.acq_reports.specs.Writing.{Allows, Reports, Writes};
ghost use Rattle.acq_reports.specs.declared.report_fault.ReportFault.TheVariants.{Store};
ghost use Rattle.acq_inquiry.specs.InquiryTexts.{inquiry_text};

use crate::inquiry::Inquiry;
use crate::search::Search;
use acq_book::Book;
use acq_core::MerchantId;
use acq_link::Sink;
use acq_reports::{Report, ReportFault, check_merchant};
use std::alloc::Global;

/// Writes what became of a merchant's requests that are asked for, and of those that share a
/// reference with one of them (own profile; `specs/InquiryTexts.antt`): of each, in the order in
/// which they came, what it was, its reply, where it stands, and what it posted. Where none is
/// found it says so. Cards are masked, and amounts are in minor units.
///
/// The rows that are found are held in memory meanwhile, with their text; no other row is.
///
/// It fails with `NoSuchMerchant` before anything is written. `Write` tells how many bytes of the
/// text went out; with `Memory` and `Store` a beginning of it may have. No other fault comes.
#[tactic(auto, using(acq_book::proofs::Chains::looks_more))]
pub fn write_inquiry<B: Book, K: Sink>(
    alloc: Global,
    book: &mut B,
    merchant: MerchantId,
    inquiry: &Inquiry,
    writer: &mut K,
) -> Result<(), ReportFault>
    ensures text { B.is_honest book.new → B.is_open book.old → Reports
        (merchant_refusal (B.tables book.old) merchant)
        (inquiry_text (B.tables book.old) merchant inquiry.now None)
        (K.sent writer.old) (K.sent writer.new) result }
    ensures writes { K.failures writer.new ≡ K.failures writer.old + failed_writes result }
    ensures looks { Looks B.Book book.old book.new (is_settled result) }
    ensures store { CountsStore result (B.failures book.old) (B.failures book.new) }
{
    check_merchant(book, merchant)?;
    write_found(alloc, book, merchant, inquiry, writer)
}

/// Writes what became of the requests that an inquiry finds.
#[tactic(auto, using(acq_book::proofs::Chains::looks_more))]
fn write_found<B: Book, K: Sink>(
    alloc: Global,
    book: &mut B,
    merchant: MerchantId,
    inquiry: &Inquiry,
    writer: &mut K,
) -> Result<(), ReportFault>
    ensures text { B.is_honest book.new → B.is_open book.old → Writes K.sent K.failures
        (inquiry_text (B.tables book.old) merchant inquiry.now None)
        writer.old writer.new result }
    ensures writes { K.failures writer.new ≡ K.failures writer.old + failed_writes result }
    ensures looks { Looks B.Book book.old book.new (is_settled result) }
    ensures store { CountsStore result (B.failures book.old) (B.failures book.new) }
{
    let search = Search::of(alloc, merchant, *inquiry);
    let text = search.text(alloc, book, None)?;
    put_text(alloc, text.as_slice(), writer)
}

/// Writes a text whole.
fn put_text<K: Sink>(alloc: Global, text: &[u8], writer: &mut K) -> Result<(), ReportFault>
    ensures text { Writes K.sent K.failures text.now writer.old writer.new result }
    ensures no_store { result ≢ Err Store }
{
    let mut report = Report::new(alloc, writer);
    report.put(text);
    report.end(Ok(()))
}
