//! What the program is asked to do.

use crate::ask_options::AskOptions;
use crate::audit_options::AuditOptions;
use crate::csv_options::CsvOptions;
use crate::find_options::FindOptions;
use crate::host_ranges_options::HostRangesOptions;
use crate::list_options::ListOptions;
use crate::page_options::PageOptions;
use crate::page_sums::PageSums;
use crate::pending_options::PendingOptions;
use crate::ranges_options::RangesOptions;
use crate::statement_options::StatementOptions;
use crate::tell_options::TellOptions;
use acq_commands::{
    BookReport, ExplainOptions, HoldsOptions, InputForm, NewBook, OnceOptions, ReplayOptions,
    SaidForm, ShownForm,
};
use acq_faults::ListenOptions;
use acq_make::MadeForm;

/// What the program is asked to do.
#[derive(Drop)]
pub enum Action {
    /// Make a new book in a file, whose pages have sums or none.
    Init(NewBook, PageSums),
    /// Migrate the book of an earlier version in the file at this path.
    Migrate(String),
    /// Answer the frames of the input, once, over a new book or the one in a file.
    Once(OnceOptions),
    /// Answer the frames of connections over the book in a file.
    Listen(ListenOptions),
    /// Take the event lines of the input, over a new book or the one in a file.
    Replay(ReplayOptions),
    /// Write a report on the book in a file.
    Report(BookReport),
    /// Write the settlement report on the book in a file, as CSV.
    ReportCsv(CsvOptions),
    /// Write a statement of merchants.
    Statement(StatementOptions),
    /// Write what became of a request.
    Find(FindOptions),
    /// Write the open holds of a merchant.
    Holds(HoldsOptions),
    /// Write the merchants, the terminals or the ranges of the book in a file.
    List(ListOptions),
    /// Make a list the ranges of the book in a file.
    Ranges(RangesOptions),
    /// Make a list the ranges of a host that takes control connections.
    HostRanges(HostRangesOptions),
    /// Write answers to the requests that are pending.
    Pending(PendingOptions),
    /// Show the messages of the input, which stand there in this form, so.
    Show(ShownForm, InputForm),
    /// Make the messages that the input says so, and write them in this form.
    Make(SaidForm, MadeForm),
    /// Say what the host would say to the events of the input, over a new book or the one in a file,
    /// and why.
    Explain(ExplainOptions),
    /// Send the messages of the input to a host, or one of them again and again.
    Ask(AskOptions),
    /// Send the lines of the input to a host that takes control connections.
    Tell(TellOptions),
    /// Write the figures of the book in the file at this path.
    Status(String),
    /// Say whether the book in a file is what a host wrote.
    Audit(AuditOptions),
    /// Show the page of a host that takes control connections.
    Page(PageOptions),
}
