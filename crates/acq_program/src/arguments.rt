//! The program's arguments.

ghost use Rattle.std.specs.Prelude.{◌≡◌, [], List, map};
ghost use Rattle.clap.specs.Words.{HasMatchesOf, Text, fault_of, found_of};
ghost use Rattle.acq_program.specs.Program.{program};
ghost use Rattle.acq_program.specs.Arguments.{AsksAsk, AsksAudit, AsksBookRanges, AsksClearing};
ghost use Rattle.acq_program.specs.Arguments.{AsksExplain};
ghost use Rattle.acq_program.specs.Arguments.{AsksFind, AsksHolds, AsksHostRanges, AsksInit};
ghost use Rattle.acq_program.specs.Arguments.{AsksList, AsksListen, AsksMake};
ghost use Rattle.acq_program.specs.Arguments.{AsksMigrate, AsksOnce, AsksPage, AsksPending};
ghost use Rattle.acq_program.specs.Arguments.{AsksRanges, AsksReplay, AsksReport, AsksShow};
ghost use Rattle.acq_program.specs.Arguments.{AsksStatement, AsksStatus, AsksTell, BoundsAre};
ghost use Rattle.acq_program.specs.Arguments.{DaysAre, EndpointIs, ExplainedIs, IsSpan, ListenedIs};
ghost use Rattle.acq_program.specs.Arguments.{PatienceIs, Reads, ReadsArguments, SoughtIs};
ghost use Rattle.acq_program.specs.Arguments.{settlement_by, takes_both};
ghost use Rattle.acq_program.specs.Options.{found_texts};

use crate::action::Action;
use crate::apart::clash_in;
use crate::ask_options::AskOptions;
use crate::audit_options::AuditOptions;
use crate::bounds::Bounds;
use crate::csv_options::CsvOptions;
use crate::find_options::FindOptions;
use crate::host_ranges_options::HostRangesOptions;
use crate::list_options::ListOptions;
use crate::option_name::OptionName;
use crate::option_values::{
    address_option, answer_within_option, book_option, card_ends_if_there, control_option,
    control_value, count_option, day_if_there, day_option, events_option, file_option, form_of,
    frame_within_option, from_one_address_option, gateway_option, gateway_within_option,
    group_option, idle_option, is_set, issuers_option, last_day_if_there, limit_option,
    list_file_option, listing_option, log_bytes_option, log_option, made_form_option,
    merchant_option, moment_if_there, moment_option, page_sums_of, path_value, port_option,
    reference_if_there, repeat_if_there, reply_within_option, said_form_of, shown_form_option,
    statement_form_of, stop_within_option, terminal_if_there, together_option, trace_if_there,
    within_option,
};
use crate::page_options::PageOptions;
use crate::pending_options::PendingOptions;
use crate::program::program;
use crate::ranges_options::RangesOptions;
use crate::sought::Sought;
use crate::statement_options::StatementOptions;
use crate::tell_options::TellOptions;
use crate::usage_fault::UsageFault;
use crate::wanted_merchants::merchants_in;
use crate::wanted_reports::add_reports;
use acq_commands::{BookReport, ExplainOptions, HoldsOptions, NewBook, OnceOptions, ReplayOptions};
use acq_faults::{DayReport, ListenOptions, Patience, ReportKind};
use acq_statement::Days;
use clap::{ArgMatches, Error};
use day_totals::Day;
use std::alloc::{AllocError, Global};
use std::convert::AsStr;
use std::net::SocketAddrV4;

/// What the arguments ask for, the program's own name first, or what is wrong with them. A call for
/// help or for the version is an error, too, as clap has it.
pub fn action_of<W: AsStr>(alloc: Global, args: &[W]) -> Result<Action, UsageFault>
    ensures { ReadsArguments (map W.text args.now) result }
{
    let matches = program(alloc)?.try_get_matches_from(args)?;
    let asked = asked_in(alloc, &matches);
    drop(matches);
    asked
}

/// What the arguments ask for, by what clap found in them. That is borrowed, since a proof of what
/// lets it go takes long at each place that may.
fn asked_in(alloc: Global, matches: &ArgMatches) -> Result<Action, UsageFault>
    ensures { (words : List Text) → fault_of program words ≡ []
        → HasMatchesOf program words matches.now → ReadsArguments words result }
{
    match matches.subcommand() {
        Some(("init", options)) => init_of(alloc, options),
        Some(("migrate", options)) => migrate_of(alloc, options),
        Some(("once", options)) => once_of(alloc, options),
        Some(("listen", options)) => listen_of(alloc, options),
        Some(("replay", options)) => replay_of(alloc, options),
        _ => reports_asked_in(alloc, matches),
    }
}

/// The same of the commands that write what is settled, and what became of it. They are apart, since
/// a proof of all names at once takes four times as long.
fn reports_asked_in(alloc: Global, matches: &ArgMatches) -> Result<Action, UsageFault>
    ensures { (words : List Text) → fault_of program words ≡ []
        → HasMatchesOf program words matches.now → ReadsArguments words result }
{
    match matches.subcommand() {
        Some(("clearing", options)) => clearing_of(alloc, options),
        Some(("report", options)) => report_of(alloc, options),
        Some(("statement", options)) => statement_of(alloc, options),
        Some(("find", options)) => find_of(alloc, options),
        _ => texts_asked_in(alloc, matches),
    }
}

/// The same of the commands about what stands open, what is enrolled, and what is in messages.
fn texts_asked_in(alloc: Global, matches: &ArgMatches) -> Result<Action, UsageFault>
    ensures { (words : List Text) → fault_of program words ≡ []
        → HasMatchesOf program words matches.now → ReadsArguments words result }
{
    match matches.subcommand() {
        Some(("holds", options)) => holds_of(alloc, options),
        Some(("list", options)) => list_of(alloc, options),
        Some(("ranges", options)) => ranges_of(alloc, options),
        Some(("pending", options)) => pending_of(alloc, options),
        Some(("show", options)) => show_of(options),
        _ => talks_asked_in(alloc, matches),
    }
}

/// The same of the commands that make messages, talk to a host, or tell how it is.
fn talks_asked_in(alloc: Global, matches: &ArgMatches) -> Result<Action, UsageFault>
    ensures { (words : List Text) → fault_of program words ≡ []
        → HasMatchesOf program words matches.now → ReadsArguments words result }
{
    match matches.subcommand() {
        Some(("make", options)) => make_of(options),
        Some(("ask", options)) => ask_of(options),
        Some(("explain", options)) => explain_of(alloc, options),
        Some(("tell", options)) => tell_of(alloc, options),
        Some(("status", options)) => status_of(alloc, options),
        Some(("audit", options)) => audit_of(alloc, options),
        Some(("page", options)) => page_of(alloc, options),
        _ => Err(Error::from(AllocError).into()),
    }
}

/// What `init` is asked for. Options are looked at in the order of help.
fn init_of(alloc: Global, options: &ArgMatches) -> Result<Action, UsageFault>
    ensures { Reads (AsksInit (found_texts (found_of options.now))) result }
{
    let path = file_option(alloc, options)?;
    let limit = limit_option(options)?;
    let first_day = day_option(options)?;
    let new = NewBook {
        path,
        limit,
        first_day,
    };
    Ok(Action::Init(new, page_sums_of(options)))
}

/// What `migrate` is asked for.
fn migrate_of(alloc: Global, options: &ArgMatches) -> Result<Action, UsageFault>
    ensures { Reads (AsksMigrate (found_texts (found_of options.now))) result }
{
    let path = file_option(alloc, options)?;
    Ok(Action::Migrate(path))
}

/// What `once` is asked for.
fn once_of(alloc: Global, options: &ArgMatches) -> Result<Action, UsageFault>
    ensures { Reads (AsksOnce (found_texts (found_of options.now))) result }
{
    let moment = moment_if_there(options)?;
    let book = book_option(alloc, options)?;
    let issuers = issuers_option(alloc, options)?;
    Ok(Action::Once(OnceOptions {
        book,
        issuers,
        moment,
    }))
}

/// What `listen` is asked for.
fn listen_of(alloc: Global, options: &ArgMatches) -> Result<Action, UsageFault>
    ensures { Reads (AsksListen (found_texts (found_of options.now))) result }
{
    let asked = listen_options(alloc, options)?;
    match clash_in(&asked) {
        None => Ok(Action::Listen(asked)),
        Some(name) => Err(UsageFault::BadValue(name)),
    }
}

/// The options of `listen`, each by itself.
fn listen_options(alloc: Global, options: &ArgMatches) -> Result<ListenOptions, UsageFault>
    ensures { Reads (ListenedIs (found_texts (found_of options.now))) result }
{
    let path = file_option(alloc, options)?;
    let endpoint = endpoint_of(options)?;
    let count = count_option(options)?;
    let moment = moment_if_there(options)?;
    let patience = patience_of(options)?;
    let bounds = bounds_of(options)?;
    let issuers = issuers_option(alloc, options)?;
    let gateway = gateway_option(alloc, options)?;
    let control = control_option(alloc, options)?;
    let log = log_option(alloc, options)?;
    Ok(ListenOptions {
        path,
        endpoint,
        count,
        together: bounds.together,
        from_one_address: bounds.from_one_address,
        proxy_protocol: is_set(options, "proxy-protocol"),
        patience,
        issuers,
        gateway,
        end_waiting: is_set(options, "end-waiting"),
        moment,
        control,
        log,
        log_bytes: bounds.log_bytes,
    })
}

/// What `replay` is asked for.
fn replay_of(alloc: Global, options: &ArgMatches) -> Result<Action, UsageFault>
    ensures { Reads (AsksReplay (found_texts (found_of options.now))) result }
{
    let limit = limit_option(options)?;
    let first_day = day_option(options)?;
    let group = group_option(options)?;
    let mut reports = Vec::new(alloc);
    add_reports(
        &mut reports,
        ReportKind::Clearing,
        options.get_strs("clearing"),
    )?;
    add_reports(
        &mut reports,
        ReportKind::Settlement,
        options.get_strs("report"),
    )?;
    let book = book_option(alloc, options)?;
    Ok(Action::Replay(ReplayOptions {
        book,
        limit,
        first_day,
        group,
        reports,
    }))
}

/// What `clearing` is asked for.
fn clearing_of(alloc: Global, options: &ArgMatches) -> Result<Action, UsageFault>
    ensures { Reads (AsksClearing (found_texts (found_of options.now))) result }
{
    let path = file_option(alloc, options)?;
    let day = day_option(options)?;
    let report = DayReport {
        kind: ReportKind::Clearing,
        day,
    };
    Ok(Action::Report(BookReport { path, report }))
}

/// What `report` is asked for.
fn report_of(alloc: Global, options: &ArgMatches) -> Result<Action, UsageFault>
    ensures { Reads (AsksReport (found_texts (found_of options.now))) result }
{
    let path = file_option(alloc, options)?;
    let day = day_option(options)?;
    Ok(settlement_by(is_set(options, "csv"), path, day))
}

/// The settlement report of a day, as CSV where that is asked for.
fn settlement_by(csv: bool, path: String, day: Day) -> Action
    ensures { result ≡ settlement_by csv path day }
{
    if csv {
        return Action::ReportCsv(CsvOptions { path, day });
    }
    let report = DayReport {
        kind: ReportKind::Settlement,
        day,
    };
    Action::Report(BookReport { path, report })
}

/// What `statement` is asked for.
fn statement_of(alloc: Global, options: &ArgMatches) -> Result<Action, UsageFault>
    ensures { Reads (AsksStatement (found_texts (found_of options.now))) result }
{
    let path = file_option(alloc, options)?;
    let days = days_of(options)?;
    let merchants = merchants_in(alloc, options.get_strs("merchant"))?;
    Ok(Action::Statement(StatementOptions {
        path,
        merchants,
        days,
        form: statement_form_of(options),
    }))
}

/// The days of a statement, the last of which doesn't lie before the first.
fn days_of(options: &ArgMatches) -> Result<Days, UsageFault>
    ensures { Reads (DaysAre (found_texts (found_of options.now))) result }
{
    let first = day_option(options)?;
    let last = last_day_if_there(options)?;
    unless_before(Days {
        first,
        last: last.unwrap_or(first),
    })
}

/// These days, unless the last lies before the first.
fn unless_before(days: Days) -> Result<Days, UsageFault>
    ensures { Reads (IsSpan days) result }
{
    if days.last.number() < days.first.number() {
        Err(UsageFault::BadValue(OptionName::To))
    } else {
        Ok(days)
    }
}

/// What `find` is asked for.
fn find_of(alloc: Global, options: &ArgMatches) -> Result<Action, UsageFault>
    ensures { Reads (AsksFind (found_texts (found_of options.now))) result }
{
    let path = file_option(alloc, options)?;
    let merchant = merchant_option(options)?;
    let sought = sought_of(options)?;
    match sought.inquiry() {
        Some(inquiry) => Ok(Action::Find(FindOptions {
            path,
            merchant,
            inquiry,
        })),
        None => Err(UsageFault::BadValue(OptionName::Reference)),
    }
}

/// By what a request is looked for.
fn sought_of(options: &ArgMatches) -> Result<Sought, UsageFault>
    ensures { Reads (SoughtIs (found_texts (found_of options.now))) result }
{
    let reference = reference_if_there(options)?;
    let terminal = terminal_if_there(options)?;
    let trace = trace_if_there(options)?;
    let card_ends = card_ends_if_there(options)?;
    let day = day_if_there(options)?;
    Ok(Sought {
        reference,
        terminal,
        trace,
        card_ends,
        day,
    })
}

/// What `holds` is asked for.
fn holds_of(alloc: Global, options: &ArgMatches) -> Result<Action, UsageFault>
    ensures { Reads (AsksHolds (found_texts (found_of options.now))) result }
{
    let path = file_option(alloc, options)?;
    let merchant = merchant_option(options)?;
    let moment = moment_option(options)?;
    Ok(Action::Holds(HoldsOptions {
        path,
        merchant,
        moment,
    }))
}

/// What `list` is asked for.
fn list_of(alloc: Global, options: &ArgMatches) -> Result<Action, UsageFault>
    ensures { Reads (AsksList (found_texts (found_of options.now))) result }
{
    let path = file_option(alloc, options)?;
    let listing = listing_option(options)?;
    Ok(Action::List(ListOptions { path, listing }))
}

/// What `ranges` is asked for: the ranges of a host at a control socket, or without one those of a
/// book in a file, and not both.
fn ranges_of(alloc: Global, options: &ArgMatches) -> Result<Action, UsageFault>
    ensures { Reads (AsksRanges (found_texts (found_of options.now))) result }
{
    if options.get_str("control").is_none() {
        return book_ranges_of(alloc, options);
    }
    if options.get_str("db").is_some() {
        return Err(UsageFault::BadValue(OptionName::Db));
    }
    host_ranges_of(alloc, options)
}

/// What `ranges` is asked for of a host.
fn host_ranges_of(alloc: Global, options: &ArgMatches) -> Result<Action, UsageFault>
    ensures { Reads (AsksHostRanges (found_texts (found_of options.now))) result }
{
    let path = control_value(alloc, options)?;
    let within = within_option(options)?;
    let list = list_file_option(alloc, options)?;
    Ok(Action::HostRanges(HostRangesOptions {
        path,
        within,
        list,
        is_dry: is_set(options, "dry-run"),
    }))
}

/// What `ranges` is asked for of a book in a file.
fn book_ranges_of(alloc: Global, options: &ArgMatches) -> Result<Action, UsageFault>
    ensures { Reads (AsksBookRanges (found_texts (found_of options.now))) result }
{
    let path = file_option(alloc, options)?;
    let list = list_file_option(alloc, options)?;
    Ok(Action::Ranges(RangesOptions {
        path,
        list,
        is_dry: is_set(options, "dry-run"),
    }))
}

/// What `pending` is asked for.
fn pending_of(alloc: Global, options: &ArgMatches) -> Result<Action, UsageFault>
    ensures { Reads (AsksPending (found_texts (found_of options.now))) result }
{
    let path = file_option(alloc, options)?;
    let day = day_if_there(options)?;
    let moment = moment_if_there(options)?;
    let issuers = issuers_option(alloc, options)?;
    Ok(Action::Pending(PendingOptions {
        path,
        day,
        issuers,
        moment,
    }))
}

/// What `ask` is asked for.
fn ask_of(options: &ArgMatches) -> Result<Action, UsageFault>
    ensures { Reads (AsksAsk (found_texts (found_of options.now))) result }
{
    let endpoint = endpoint_of(options)?;
    let within = reply_within_option(options)?;
    let repeat = repeat_if_there(options)?;
    Ok(Action::Ask(AskOptions {
        endpoint,
        within,
        repeat,
    }))
}

/// What `tell` is asked for.
fn tell_of(alloc: Global, options: &ArgMatches) -> Result<Action, UsageFault>
    ensures { Reads (AsksTell (found_texts (found_of options.now))) result }
{
    let path = path_value(alloc, options)?;
    let within = within_option(options)?;
    Ok(Action::Tell(TellOptions { path, within }))
}

/// What `status` is asked for.
fn status_of(alloc: Global, options: &ArgMatches) -> Result<Action, UsageFault>
    ensures { Reads (AsksStatus (found_texts (found_of options.now))) result }
{
    let path = file_option(alloc, options)?;
    Ok(Action::Status(path))
}

/// What `audit` is asked for.
fn audit_of(alloc: Global, options: &ArgMatches) -> Result<Action, UsageFault>
    ensures { Reads (AsksAudit (found_texts (found_of options.now))) result }
{
    let path = file_option(alloc, options)?;
    let events = events_option(alloc, options)?;
    Ok(Action::Audit(AuditOptions { path, events }))
}

/// What `page` is asked for.
fn page_of(alloc: Global, options: &ArgMatches) -> Result<Action, UsageFault>
    ensures { Reads (AsksPage (found_texts (found_of options.now))) result }
{
    let control = control_value(alloc, options)?;
    let port = port_option(options)?;
    Ok(Action::Page(PageOptions { control, port }))
}

/// What `explain` is asked for.
fn explain_of(alloc: Global, options: &ArgMatches) -> Result<Action, UsageFault>
    ensures { Reads (AsksExplain (found_texts (found_of options.now))) result }
{
    let asked = explain_options(alloc, options)?;
    if takes_both(&asked) {
        Err(UsageFault::BadValue(OptionName::Events))
    } else {
        Ok(Action::Explain(asked))
    }
}

/// Whether a book's file and a file of events are named.
fn takes_both(asked: &ExplainOptions) -> bool
    ensures { result ≡ takes_both asked.now }
{
    asked.book.is_some() && asked.events.is_some()
}

/// The options of `explain`, each by itself.
fn explain_options(alloc: Global, options: &ArgMatches) -> Result<ExplainOptions, UsageFault>
    ensures { Reads (ExplainedIs (found_texts (found_of options.now))) result }
{
    let limit = limit_option(options)?;
    let first_day = day_option(options)?;
    let moment = moment_if_there(options)?;
    let book = book_option(alloc, options)?;
    let events = events_option(alloc, options)?;
    Ok(ExplainOptions {
        book,
        events,
        limit,
        first_day,
        form: form_of(options),
        moment,
    })
}

/// The port and the address that are asked for.
fn endpoint_of(options: &ArgMatches) -> Result<SocketAddrV4, UsageFault>
    ensures { Reads (EndpointIs (found_texts (found_of options.now))) result }
{
    let port = port_option(options)?;
    let address = address_option(options)?;
    Ok(SocketAddrV4::new(address, port))
}

/// How long a connection may take.
fn patience_of(options: &ArgMatches) -> Result<Patience, UsageFault>
    ensures { Reads (PatienceIs (found_texts (found_of options.now))) result }
{
    let idle = idle_option(options)?;
    let frame_within = frame_within_option(options)?;
    let stop_within = stop_within_option(options)?;
    let answer_within = answer_within_option(options)?;
    let gateway_within = gateway_within_option(options)?;
    Ok(Patience {
        idle,
        frame_within,
        stop_within,
        answer_within,
        gateway_within,
    })
}

/// How many connections are served at once, how many of them of one address, and how many bytes a
/// log has.
fn bounds_of(options: &ArgMatches) -> Result<Bounds, UsageFault>
    ensures { Reads (BoundsAre (found_texts (found_of options.now))) result }
{
    let together = together_option(options)?;
    let from_one_address = from_one_address_option(options)?;
    let log_bytes = log_bytes_option(options)?;
    Ok(Bounds {
        together,
        from_one_address,
        log_bytes,
    })
}

/// What `make` is asked for.
fn make_of(options: &ArgMatches) -> Result<Action, UsageFault>
    ensures { Reads (AsksMake (found_texts (found_of options.now))) result }
{
    let form = made_form_option(options)?;
    Ok(Action::Make(said_form_of(options), form))
}

/// What `show` is asked for.
fn show_of(options: &ArgMatches) -> Result<Action, UsageFault>
    ensures { Reads (AsksShow (found_texts (found_of options.now))) result }
{
    let how = shown_form_option(options)?;
    Ok(Action::Show(how, form_of(options)))
}
