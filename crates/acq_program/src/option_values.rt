//! The values of options, each by itself, as clap found them.

ghost use Rattle.std.specs.Prelude.{◌≡◌, codes, IfErr, IfOk, option_map, string_bytes};
ghost use Rattle.clap.specs.Words.{first_value, found_of};
ghost use Rattle.acq_program.specs.Arguments.{IsNoMemory, PathIs, Reads};
ghost use Rattle.acq_program.specs.Options.{AddressIs, AnswerWithinIs, CardEndsIfThere};
ghost use Rattle.acq_program.specs.Options.{ControlIs, CountIs, DayIfThere, DayIs, FileIs};
ghost use Rattle.acq_program.specs.Options.{FrameWithinIs};
ghost use Rattle.acq_program.specs.Options.{FromOneAddressIs, GatewayWithinIs, GroupIs, IdleIs};
ghost use Rattle.acq_program.specs.Options.{LastDayIfThere, LimitIs, ListFileIs, ListingIs};
ghost use Rattle.acq_program.specs.Options.{LogBytesIs, MadeFormIs, MerchantIs, MomentIfThere};
ghost use Rattle.acq_program.specs.Options.{MomentIs, PortIs, ReferenceIfThere, RepeatIfThere};
ghost use Rattle.acq_program.specs.Options.{ReplyWithinIs, ShownFormIs, StopWithinIs};
ghost use Rattle.acq_program.specs.Options.{TerminalIfThere, TogetherIs, TraceIfThere, WithinIs};
ghost use Rattle.acq_program.specs.Options.{form_of_flag, found_texts, is_set, made_by};
ghost use Rattle.acq_program.specs.Options.{page_sums_by, said_by, statement_form_by};

use crate::option_name::OptionName;
use crate::options::{
    bytes_of, card_ends_of, count_of, group_of, limit_of, port_of, reference_of, repeat_of,
    seconds_of, terminal_of, together_of,
};
use crate::page_sums::PageSums;
use crate::usage_fault::UsageFault;
use acq_commands::{GroupSize, InputForm, SaidForm, ShownForm, first_day_of_all, greatest_limit};
use acq_core::{Limit, MerchantId, Moment, Reference, TerminalId};
use acq_directory::Listing;
use acq_json::CardForm;
use acq_make::MadeForm;
use acq_message::Trace;
use acq_out::{merchant_of, moment_of};
use acq_statement::StatementForm;
use clap::ArgMatches;
use day_totals::Day;
use std::alloc::Global;
use std::net::Ipv4Addr;

/// For how many seconds a connection may be silent, where nothing else is asked for.
const USUAL_IDLE: u64 = 60;

/// How many seconds a frame may take, where nothing else is asked for.
const USUAL_FRAME_WITHIN: u64 = 30;

/// How many seconds one may be there once the host was asked to end, where nothing else is asked
/// for.
const USUAL_STOP_WITHIN: u64 = 10;

/// How many seconds a terminal may wait for its issuer's answer, where nothing else is asked for.
const USUAL_ANSWER_WITHIN: u64 = 30;

/// How many seconds it may wait for a gateway where none is connected, where nothing else is asked
/// for.
const USUAL_GATEWAY_WITHIN: u64 = 0;

/// How many seconds an answer of a host may take, where nothing else is asked for.
const USUAL_WITHIN: u64 = 60;

/// How many seconds a reply of a host may take, where nothing else is asked for.
const USUAL_REPLY_WITHIN: u64 = 30;

/// How many bytes a log has at most, where nothing else is asked for: 1 GiB.
const USUAL_LOG_BYTES: u64 = 1_073_741_824;

/// The path of the file of events that a new book takes first, where the option is there.
pub(crate) fn events_option(
    alloc: Global,
    options: &ArgMatches,
) -> Result<Option<String>, UsageFault>
    ensures given { IfOk result (λ events. option_map string_bytes events
        ≡ (found_texts (found_of options.now)).events) }
    ensures refused { IfErr result IsNoMemory }
{
    match options.get_str("events") {
        Some(path) => Ok(Some(String::from_str(alloc, path)?)),
        None => Ok(None),
    }
}

/// The path of the book's file.
pub(crate) fn file_option(alloc: Global, options: &ArgMatches) -> Result<String, UsageFault>
    ensures { Reads (FileIs (found_texts (found_of options.now))) result }
{
    match options.get_str("db") {
        Some(path) => Ok(String::from_str(alloc, path)?),
        None => Err(UsageFault::BadValue(OptionName::Db)),
    }
}

/// The path of the book's file, where the option is there.
pub(crate) fn book_option(alloc: Global, options: &ArgMatches) -> Result<Option<String>, UsageFault>
    ensures given { IfOk result (λ book. option_map string_bytes book
        ≡ (found_texts (found_of options.now)).db) }
    ensures refused { IfErr result IsNoMemory }
{
    match options.get_str("db") {
        Some(path) => Ok(Some(String::from_str(alloc, path)?)),
        None => Ok(None),
    }
}

/// The path of the file of issuers' answers, where the option is there.
pub(crate) fn issuers_option(
    alloc: Global,
    options: &ArgMatches,
) -> Result<Option<String>, UsageFault>
    ensures given { IfOk result (λ issuers. option_map string_bytes issuers
        ≡ (found_texts (found_of options.now)).issuers) }
    ensures refused { IfErr result IsNoMemory }
{
    match options.get_str("issuers") {
        Some(path) => Ok(Some(String::from_str(alloc, path)?)),
        None => Ok(None),
    }
}

/// The socket's file at which a gateway to issuers is asked for, if one is.
pub(crate) fn gateway_option(
    alloc: Global,
    options: &ArgMatches,
) -> Result<Option<String>, UsageFault>
    ensures given { IfOk result (λ gateway. option_map string_bytes gateway
        ≡ (found_texts (found_of options.now)).gateway) }
    ensures refused { IfErr result IsNoMemory }
{
    match options.get_str("gateway") {
        Some(path) => Ok(Some(String::from_str(alloc, path)?)),
        None => Ok(None),
    }
}

/// The socket's file at which control connections are asked for, if they are.
pub(crate) fn control_option(
    alloc: Global,
    options: &ArgMatches,
) -> Result<Option<String>, UsageFault>
    ensures given { IfOk result (λ control. option_map string_bytes control
        ≡ (found_texts (found_of options.now)).control) }
    ensures refused { IfErr result IsNoMemory }
{
    match options.get_str("control") {
        Some(path) => Ok(Some(String::from_str(alloc, path)?)),
        None => Ok(None),
    }
}

/// The path of the file that takes a log, if one is asked for.
pub(crate) fn log_option(alloc: Global, options: &ArgMatches) -> Result<Option<String>, UsageFault>
    ensures given { IfOk result (λ log. option_map string_bytes log
        ≡ (found_texts (found_of options.now)).log) }
    ensures refused { IfErr result IsNoMemory }
{
    match options.get_str("log") {
        Some(path) => Ok(Some(String::from_str(alloc, path)?)),
        None => Ok(None),
    }
}

/// The path of the file of a list of ranges.
pub(crate) fn list_file_option(alloc: Global, options: &ArgMatches) -> Result<String, UsageFault>
    ensures { Reads (ListFileIs (found_texts (found_of options.now))) result }
{
    match options.get_str("set") {
        Some(path) => Ok(String::from_str(alloc, path)?),
        None => Err(UsageFault::BadValue(OptionName::Set)),
    }
}

/// The path of a socket's file.
pub(crate) fn path_value(alloc: Global, options: &ArgMatches) -> Result<String, UsageFault>
    ensures { Reads (PathIs (found_texts (found_of options.now))) result }
{
    match options.get_str("path") {
        Some(path) => Ok(String::from_str(alloc, path)?),
        None => Err(UsageFault::BadValue(OptionName::Path)),
    }
}

/// The path of a control socket's file, which has to be there.
pub(crate) fn control_value(alloc: Global, options: &ArgMatches) -> Result<String, UsageFault>
    ensures { Reads (ControlIs (found_texts (found_of options.now))) result }
{
    match options.get_str("control") {
        Some(path) => Ok(String::from_str(alloc, path)?),
        None => Err(UsageFault::BadValue(OptionName::Control)),
    }
}

/// The limit that is asked for.
pub(crate) fn limit_option(options: &ArgMatches) -> Result<Limit, UsageFault>
    ensures { Reads (LimitIs (found_texts (found_of options.now))) result }
{
    match options.get_str("limit") {
        Some(text) => limit_of(text).ok_or(UsageFault::BadValue(OptionName::Limit)),
        None => Ok(greatest_limit()),
    }
}

/// The day that is asked for.
pub(crate) fn day_option(options: &ArgMatches) -> Result<Day, UsageFault>
    ensures { Reads (DayIs (found_texts (found_of options.now))) result }
{
    match options.get_str("day") {
        Some(text) => Day::read(text).ok_or(UsageFault::BadValue(OptionName::Day)),
        None => Ok(first_day_of_all()),
    }
}

/// The day that is asked for, where the option is there.
pub(crate) fn day_if_there(options: &ArgMatches) -> Result<Option<Day>, UsageFault>
    ensures { Reads (DayIfThere (found_texts (found_of options.now))) result }
{
    let Some(text) = options.get_str("day") else {
        return Ok(None);
    };
    match Day::read(text) {
        Some(day) => Ok(Some(day)),
        None => Err(UsageFault::BadValue(OptionName::Day)),
    }
}

/// How many events are to be taken at once: without the option 1.
pub(crate) fn group_option(options: &ArgMatches) -> Result<GroupSize, UsageFault>
    ensures { Reads (GroupIs (found_texts (found_of options.now))) result }
{
    match options.get_str("group") {
        Some(text) => group_of(text).ok_or(UsageFault::BadValue(OptionName::Group)),
        None => Ok(GroupSize::one()),
    }
}

/// The merchant that is asked for.
pub(crate) fn merchant_option(options: &ArgMatches) -> Result<MerchantId, UsageFault>
    ensures { Reads (MerchantIs (found_texts (found_of options.now))) result }
{
    options
        .get_str("merchant")
        .and_then(|text| merchant_of(text.as_bytes()))
        .ok_or(UsageFault::BadValue(OptionName::Merchant))
}

/// The last day of a statement, where the option is there.
pub(crate) fn last_day_if_there(options: &ArgMatches) -> Result<Option<Day>, UsageFault>
    ensures { Reads (LastDayIfThere (found_texts (found_of options.now))) result }
{
    let Some(text) = options.get_str("to") else {
        return Ok(None);
    };
    match Day::read(text) {
        Some(day) => Ok(Some(day)),
        None => Err(UsageFault::BadValue(OptionName::To)),
    }
}

/// The reference of the request that is looked for, where the option is there.
pub(crate) fn reference_if_there(options: &ArgMatches) -> Result<Option<Reference>, UsageFault>
    ensures { Reads (ReferenceIfThere (found_texts (found_of options.now))) result }
{
    let Some(text) = options.get_str("reference") else {
        return Ok(None);
    };
    match reference_of(text) {
        Some(reference) => Ok(Some(reference)),
        None => Err(UsageFault::BadValue(OptionName::Reference)),
    }
}

/// Its terminal, where the option is there.
pub(crate) fn terminal_if_there(options: &ArgMatches) -> Result<Option<TerminalId>, UsageFault>
    ensures { Reads (TerminalIfThere (found_texts (found_of options.now))) result }
{
    let Some(text) = options.get_str("terminal") else {
        return Ok(None);
    };
    match terminal_of(text.as_bytes()) {
        Some(terminal) => Ok(Some(terminal)),
        None => Err(UsageFault::BadValue(OptionName::Terminal)),
    }
}

/// Its trace number, where the option is there.
pub(crate) fn trace_if_there(options: &ArgMatches) -> Result<Option<Trace>, UsageFault>
    ensures { Reads (TraceIfThere (found_texts (found_of options.now))) result }
{
    let Some(text) = options.get_str("trace") else {
        return Ok(None);
    };
    match Trace::read(text.as_bytes()) {
        Some(trace) => Ok(Some(trace)),
        None => Err(UsageFault::BadValue(OptionName::Trace)),
    }
}

/// The last digits of its card number, where the option is there.
pub(crate) fn card_ends_if_there(options: &ArgMatches) -> Result<Option<[u8; 4]>, UsageFault>
    ensures { Reads (CardEndsIfThere (found_texts (found_of options.now))) result }
{
    let Some(text) = options.get_str("card-ends") else {
        return Ok(None);
    };
    match card_ends_of(text.as_bytes()) {
        Some(digits) => Ok(Some(digits)),
        None => Err(UsageFault::BadValue(OptionName::CardEnds)),
    }
}

/// What is to be listed.
pub(crate) fn listing_option(options: &ArgMatches) -> Result<Listing, UsageFault>
    ensures { Reads (ListingIs (found_texts (found_of options.now))) result }
{
    options
        .get_str("what")
        .and_then(|text| Listing::named(text.as_bytes()))
        .ok_or(UsageFault::BadValue(OptionName::What))
}

/// The moment that is asked for.
pub(crate) fn moment_option(options: &ArgMatches) -> Result<Moment, UsageFault>
    ensures { Reads (MomentIs (found_texts (found_of options.now))) result }
{
    options
        .get_str("at")
        .and_then(|text| moment_of(text.as_bytes()))
        .ok_or(UsageFault::BadValue(OptionName::At))
}

/// The moment that is asked for, where the option is there.
pub(crate) fn moment_if_there(options: &ArgMatches) -> Result<Option<Moment>, UsageFault>
    ensures { Reads (MomentIfThere (found_texts (found_of options.now))) result }
{
    let Some(text) = options.get_str("at") else {
        return Ok(None);
    };
    match moment_of(text.as_bytes()) {
        Some(moment) => Ok(Some(moment)),
        None => Err(UsageFault::BadValue(OptionName::At)),
    }
}

/// The port that is asked for.
pub(crate) fn port_option(options: &ArgMatches) -> Result<u16, UsageFault>
    ensures { Reads (PortIs (found_texts (found_of options.now))) result }
{
    options
        .get_str("port")
        .and_then(port_of)
        .ok_or(UsageFault::BadValue(OptionName::Port))
}

/// The address that is asked for: without the option that of the machine itself.
pub(crate) fn address_option(options: &ArgMatches) -> Result<Ipv4Addr, UsageFault>
    ensures { Reads (AddressIs (found_texts (found_of options.now))) result }
{
    let Some(text) = options.get_str("address") else {
        return Ok(Ipv4Addr::new(127, 0, 0, 1));
    };
    match text.parse::<Ipv4Addr>() {
        Ok(address) => Ok(address),
        Err(_) => Err(UsageFault::BadValue(OptionName::Address)),
    }
}

/// How many connections are asked for: without the option, as many as can be counted.
pub(crate) fn count_option(options: &ArgMatches) -> Result<u64, UsageFault>
    ensures { Reads (CountIs (found_texts (found_of options.now))) result }
{
    match options.get_str("count") {
        Some(text) => count_of(text).ok_or(UsageFault::BadValue(OptionName::Count)),
        None => Ok(u64::MAX),
    }
}

/// How many seconds of silence are asked for: without the option 60.
pub(crate) fn idle_option(options: &ArgMatches) -> Result<u64, UsageFault>
    ensures { Reads (IdleIs (found_texts (found_of options.now))) result }
{
    match options.get_str("idle") {
        Some(text) => seconds_of(text).ok_or(UsageFault::BadValue(OptionName::Idle)),
        None => Ok(USUAL_IDLE),
    }
}

/// How many seconds a frame may take: without the option 30.
pub(crate) fn frame_within_option(options: &ArgMatches) -> Result<u64, UsageFault>
    ensures { Reads (FrameWithinIs (found_texts (found_of options.now))) result }
{
    match options.get_str("frame-within") {
        Some(text) => seconds_of(text).ok_or(UsageFault::BadValue(OptionName::FrameWithin)),
        None => Ok(USUAL_FRAME_WITHIN),
    }
}

/// How many seconds a connection may be there once the host was asked to end: without the option
/// 10.
pub(crate) fn stop_within_option(options: &ArgMatches) -> Result<u64, UsageFault>
    ensures { Reads (StopWithinIs (found_texts (found_of options.now))) result }
{
    match options.get_str("stop-within") {
        Some(text) => seconds_of(text).ok_or(UsageFault::BadValue(OptionName::StopWithin)),
        None => Ok(USUAL_STOP_WITHIN),
    }
}

/// How many seconds a terminal may wait for its issuer's answer: without the option 30.
pub(crate) fn answer_within_option(options: &ArgMatches) -> Result<u64, UsageFault>
    ensures { Reads (AnswerWithinIs (found_texts (found_of options.now))) result }
{
    match options.get_str("answer-within") {
        Some(text) => seconds_of(text).ok_or(UsageFault::BadValue(OptionName::AnswerWithin)),
        None => Ok(USUAL_ANSWER_WITHIN),
    }
}

/// How many seconds it may wait for a gateway where none is connected: without the option none.
pub(crate) fn gateway_within_option(options: &ArgMatches) -> Result<u64, UsageFault>
    ensures { Reads (GatewayWithinIs (found_texts (found_of options.now))) result }
{
    match options.get_str("gateway-within") {
        Some(text) => seconds_of(text).ok_or(UsageFault::BadValue(OptionName::GatewayWithin)),
        None => Ok(USUAL_GATEWAY_WITHIN),
    }
}

/// How many seconds an answer of a host may take: without the option 60.
pub(crate) fn within_option(options: &ArgMatches) -> Result<u64, UsageFault>
    ensures { Reads (WithinIs (found_texts (found_of options.now))) result }
{
    match options.get_str("within") {
        Some(text) => seconds_of(text).ok_or(UsageFault::BadValue(OptionName::Within)),
        None => Ok(USUAL_WITHIN),
    }
}

/// How many seconds a reply of a host may take: without the option 30.
pub(crate) fn reply_within_option(options: &ArgMatches) -> Result<u64, UsageFault>
    ensures { Reads (ReplyWithinIs (found_texts (found_of options.now))) result }
{
    match options.get_str("within") {
        Some(text) => seconds_of(text).ok_or(UsageFault::BadValue(OptionName::Within)),
        None => Ok(USUAL_REPLY_WITHIN),
    }
}

/// How often a message is to be sent, where that is asked for.
pub(crate) fn repeat_if_there(options: &ArgMatches) -> Result<Option<u64>, UsageFault>
    ensures { Reads (RepeatIfThere (found_texts (found_of options.now))) result }
{
    let Some(text) = options.get_str("repeat") else {
        return Ok(None);
    };
    match repeat_of(text) {
        Some(count) => Ok(Some(count)),
        None => Err(UsageFault::BadValue(OptionName::Repeat)),
    }
}

/// How many bytes a log has at most: without the option 1 GiB.
pub(crate) fn log_bytes_option(options: &ArgMatches) -> Result<u64, UsageFault>
    ensures { Reads (LogBytesIs (found_texts (found_of options.now))) result }
{
    match options.get_str("log-bytes") {
        Some(text) => bytes_of(text).ok_or(UsageFault::BadValue(OptionName::LogBytes)),
        None => Ok(USUAL_LOG_BYTES),
    }
}

/// How many connections are to be served at once: without the option 1.
pub(crate) fn together_option(options: &ArgMatches) -> Result<usize, UsageFault>
    ensures { Reads (TogetherIs (found_texts (found_of options.now))) result }
{
    match options.get_str("together") {
        Some(text) => together_of(text).ok_or(UsageFault::BadValue(OptionName::Together)),
        None => Ok(1),
    }
}

/// How many connections of one address may be served at once, where that is asked for.
pub(crate) fn from_one_address_option(options: &ArgMatches) -> Result<Option<usize>, UsageFault>
    ensures { Reads (FromOneAddressIs (found_texts (found_of options.now))) result }
{
    let Some(text) = options.get_str("from-one-address") else {
        return Ok(None);
    };
    match together_of(text) {
        Some(number) => Ok(Some(number)),
        None => Err(UsageFault::BadValue(OptionName::FromOneAddress)),
    }
}

/// The form in which `make` is to write: event lines where their moment is there.
pub(crate) fn made_form_option(options: &ArgMatches) -> Result<MadeForm, UsageFault>
    ensures { Reads (MadeFormIs (found_texts (found_of options.now))) result }
{
    let Some(text) = options.get_str("event") else {
        return Ok(plain_form(options));
    };
    match moment_of(text.as_bytes()) {
        Some(moment) => Ok(MadeForm::EventLines(moment)),
        None => Err(UsageFault::BadValue(OptionName::Event)),
    }
}

/// The form in which it is to write without that.
pub(crate) fn plain_form(options: &ArgMatches) -> MadeForm
    ensures { result ≡ made_by (form_of_flag (first_value (found_of options.now) (codes "hex"))) }
{
    match form_of(options) {
        InputForm::Plain => MadeForm::Frames,
        InputForm::HexLines => MadeForm::HexLines,
    }
}

/// How what is to be made is said.
pub(crate) fn said_form_of(options: &ArgMatches) -> SaidForm
    ensures { result ≡ said_by (first_value (found_of options.now) (codes "json")) }
{
    if is_set(options, "json") {
        SaidForm::Json
    } else {
        SaidForm::Lines
    }
}

/// How `show` is to show messages: with cards whole only as JSON.
pub(crate) fn shown_form_option(options: &ArgMatches) -> Result<ShownForm, UsageFault>
    ensures { Reads (ShownFormIs (found_texts (found_of options.now))) result }
{
    match (is_set(options, "json"), is_set(options, "whole")) {
        (true, true) => Ok(ShownForm::Json(CardForm::Whole)),
        (true, false) => Ok(ShownForm::Json(CardForm::Masked)),
        (false, true) => Err(UsageFault::BadValue(OptionName::Whole)),
        (false, false) => Ok(ShownForm::Text),
    }
}

/// Whether the pages of a new book's file are to have sums.
pub(crate) fn page_sums_of(options: &ArgMatches) -> PageSums
    ensures { result ≡ page_sums_by (first_value (found_of options.now) (codes "sums")) }
{
    if is_set(options, "sums") {
        PageSums::With
    } else {
        PageSums::Without
    }
}

/// The form of a statement.
pub(crate) fn statement_form_of(options: &ArgMatches) -> StatementForm
    ensures { result ≡ statement_form_by (first_value (found_of options.now) (codes "csv")) }
{
    if is_set(options, "csv") {
        StatementForm::Csv
    } else {
        StatementForm::Text
    }
}

/// The form of the messages in an input.
pub(crate) fn form_of(options: &ArgMatches) -> InputForm
    ensures { result ≡ form_of_flag (first_value (found_of options.now) (codes "hex")) }
{
    if is_set(options, "hex") {
        InputForm::HexLines
    } else {
        InputForm::Plain
    }
}

/// Whether a flag is there.
pub(crate) fn is_set(options: &ArgMatches, name: &str) -> bool
    ensures { result ≡ is_set (first_value (found_of options.now) name.now) }
{
    match options.get_str(name) {
        Some("true") => true,
        _ => false,
    }
}
