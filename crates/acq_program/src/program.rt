//! The program's commands and their options.

ghost use Rattle.std.specs.Prelude.{◌≡◌, true, false};
ghost use Rattle.clap.specs.Words.{app_of, new_app, rule_of};
ghost use Rattle.acq_program.specs.Commands.{Makes, are_plain, with_commands};
ghost use Rattle.acq_program.specs.Parameters.{rule_of_parameter, with_parameters};
ghost use Rattle.acq_program.specs.Program.{acqd, program};

use crate::command_text::CommandText;
use crate::help;
use crate::parameter::Parameter;
use crate::parameter::ParameterKind::{Flag, Optional, Place, Repeated, Required};
use acq_status::VERSION;
use clap::{Arg, ArgAction, Command};
use std::alloc::{AllocError, Global};

const FILE_OR_MEMORY: &str = "The file of the book [default: a new book in memory]";

const LIMIT_OF_NEW: &str =
    "How many messages of one merchant a day admits, 1 to 999999 [default: 999999]";

const FIRST_DAY_OF_NEW: &str =
    "The first business day, 2000-01-01 to 2099-12-31 [default: 2000-01-01]";

const ISSUERS: &str = "The file of issuers' answers [default: no issuer can be reached]";

const ANSWERING: &str = "The file of issuers' answers [default: `none` for each]";

const COMING_AT: &str =
    "The moment at which all frames come, 946684800 to 4102444799 [default: the clock's]";

const GATEWAY: &str =
    "A Unix socket's file at which a gateway to issuers connects, in place of --issuers";

const FRAME_WITHIN: &str =
    "How long a frame may take, first byte to last, 0 to 999999, 0 for ever [default: 30]";

const GATEWAY_WITHIN: &str =
    "How long a terminal may wait where no gateway is connected, 0 to 999999 [default: 0]";

/// That messages stand in lines of hexadecimal.
const HEX_INPUT: Parameter<'static> = Parameter {
    name: "hex",
    kind: Flag,
    help: "The input is lines, each a message in hexadecimal",
};

/// The file of a book that is there.
const BOOK: Parameter<'static> = Parameter {
    name: "db",
    kind: Required("FILE"),
    help: "The file of the book",
};

/// What `init` takes.
const INIT: [Parameter<'static>; 4] = [
    Parameter {
        name: "db",
        kind: Required("FILE"),
        help: "The file of the new book",
    },
    Parameter {
        name: "limit",
        kind: Required("N"),
        help: "How many messages of one merchant a day admits, 1 to 999999",
    },
    Parameter {
        name: "day",
        kind: Required("YYYY-MM-DD"),
        help: "The first business day, 2000-01-01 to 2099-12-31",
    },
    Parameter {
        name: "sums",
        kind: Flag,
        help: "Each page of the file has a sum, by which a byte that was changed is told",
    },
];

/// What `migrate` takes.
const MIGRATE: [Parameter<'static>; 1] = [BOOK];

/// What `once` takes.
const ONCE: [Parameter<'static>; 3] = [
    Parameter {
        name: "db",
        kind: Optional("FILE"),
        help: FILE_OR_MEMORY,
    },
    Parameter {
        name: "issuers",
        kind: Optional("FILE"),
        help: ISSUERS,
    },
    Parameter {
        name: "at",
        kind: Optional("MOMENT"),
        help: COMING_AT,
    },
];

/// What `listen` takes: its file, its port, how many connections come, and what is said of each.
const LISTEN: [Parameter<'static>; 19] = [
    BOOK,
    Parameter {
        name: "port",
        kind: Required("P"),
        help: "The port, 1 to 65535",
    },
    Parameter {
        name: "address",
        kind: Optional("ADDRESS"),
        help: "The IPv4 address at which connections are taken [default: 127.0.0.1]",
    },
    Parameter {
        name: "count",
        kind: Optional("N"),
        help: "How many connections are served, 1 to 999999 [default: all that come]",
    },
    Parameter {
        name: "issuers",
        kind: Optional("FILE"),
        help: ISSUERS,
    },
    Parameter {
        name: "gateway",
        kind: Optional("PATH"),
        help: GATEWAY,
    },
    Parameter {
        name: "at",
        kind: Optional("MOMENT"),
        help: COMING_AT,
    },
    Parameter {
        name: "idle",
        kind: Optional("SECONDS"),
        help: "How long a connection may be silent, 0 to 999999, 0 for ever [default: 60]",
    },
    Parameter {
        name: "frame-within",
        kind: Optional("SECONDS"),
        help: FRAME_WITHIN,
    },
    Parameter {
        name: "stop-within",
        kind: Optional("SECONDS"),
        help: "How long one may be there once `stop` came, as --idle [default: 10]",
    },
    Parameter {
        name: "answer-within",
        kind: Optional("SECONDS"),
        help: "How long a terminal may wait for its issuer's answer, as --idle [default: 30]",
    },
    Parameter {
        name: "gateway-within",
        kind: Optional("SECONDS"),
        help: GATEWAY_WITHIN,
    },
    Parameter {
        name: "end-waiting",
        kind: Flag,
        help: "Requests that wait for their issuer's answer are ended first, without one",
    },
    Parameter {
        name: "together",
        kind: Optional("M"),
        help: "How many connections are served at once, 1 to 1024 [default: 1]",
    },
    Parameter {
        name: "from-one-address",
        kind: Optional("N"),
        help: "How many of them may come from one address, 1 to 1024 [default: all]",
    },
    Parameter {
        name: "proxy-protocol",
        kind: Flag,
        help: "Each connection begins with the header of HAProxy's PROXY protocol, version 1 or 2",
    },
    Parameter {
        name: "control",
        kind: Optional("PATH"),
        help: "A Unix socket's file at which control connections are taken, too",
    },
    Parameter {
        name: "log",
        kind: Optional("FILE"),
        help: "A file that takes a log for operators; - is standard error",
    },
    Parameter {
        name: "log-bytes",
        kind: Optional("N"),
        help: "How many bytes that file has at most, 0 for all that come [default: 1073741824]",
    },
];

/// What `replay` takes.
const REPLAY: [Parameter<'static>; 6] = [
    Parameter {
        name: "db",
        kind: Optional("FILE"),
        help: FILE_OR_MEMORY,
    },
    Parameter {
        name: "limit",
        kind: Optional("N"),
        help: LIMIT_OF_NEW,
    },
    Parameter {
        name: "day",
        kind: Optional("YYYY-MM-DD"),
        help: FIRST_DAY_OF_NEW,
    },
    Parameter {
        name: "group",
        kind: Optional("N"),
        help: "How many events are taken at once, 1 to 10000 [default: 1]",
    },
    Parameter {
        name: "clearing",
        kind: Repeated("YYYY-MM-DD"),
        help: "In place of the lines: the clearing file of a day that is over; may be repeated",
    },
    Parameter {
        name: "report",
        kind: Repeated("YYYY-MM-DD"),
        help: "In place of the lines: the settlement report of such a day; may be repeated",
    },
];

/// The business day of a text.
const DAY: Parameter<'static> = Parameter {
    name: "day",
    kind: Required("YYYY-MM-DD"),
    help: "The business day",
};

/// What `clearing` takes.
const CLEARING: [Parameter<'static>; 2] = [BOOK, DAY];

/// What `report` takes.
const REPORT: [Parameter<'static>; 3] = [
    BOOK,
    DAY,
    Parameter {
        name: "csv",
        kind: Flag,
        help: "The text is CSV, with currencies and their sums",
    },
];

/// What `statement` takes.
const STATEMENT: [Parameter<'static>; 5] = [
    BOOK,
    Parameter {
        name: "merchant",
        kind: Repeated("MERCHANT"),
        help: "A merchant, 1 to 15 bytes; may be repeated [default: all]",
    },
    Parameter {
        name: "day",
        kind: Required("YYYY-MM-DD"),
        help: "The business day, or the first one",
    },
    Parameter {
        name: "to",
        kind: Optional("YYYY-MM-DD"),
        help: "The last business day [default: the first]",
    },
    Parameter {
        name: "csv",
        kind: Flag,
        help: "The text is CSV",
    },
];

/// What `find` takes.
const FIND: [Parameter<'static>; 7] = [
    BOOK,
    Parameter {
        name: "merchant",
        kind: Required("MERCHANT"),
        help: "The merchant, 1 to 15 bytes",
    },
    Parameter {
        name: "reference",
        kind: Optional("REFERENCE"),
        help: "The request with this reference, 1 to 12 digits",
    },
    Parameter {
        name: "terminal",
        kind: Optional("TERMINAL"),
        help: "With --trace: those of this terminal, 1 to 8 bytes",
    },
    Parameter {
        name: "trace",
        kind: Optional("TRACE"),
        help: "With --terminal: those with this trace number, six digits",
    },
    Parameter {
        name: "card-ends",
        kind: Optional("DIGITS"),
        help: "With --day: those whose card number ends in these four digits",
    },
    Parameter {
        name: "day",
        kind: Optional("YYYY-MM-DD"),
        help: "With --card-ends: those of this business day",
    },
];

/// What `holds` takes.
const HOLDS: [Parameter<'static>; 3] = [
    BOOK,
    Parameter {
        name: "merchant",
        kind: Required("MERCHANT"),
        help: "The merchant, 1 to 15 bytes",
    },
    Parameter {
        name: "at",
        kind: Required("MOMENT"),
        help: "The moment, 946684800 to 4102444799",
    },
];

/// What `list` takes.
const LIST: [Parameter<'static>; 2] = [
    Parameter {
        name: "what",
        kind: Place("WHAT"),
        help: "What is listed: merchants, terminals or ranges",
    },
    BOOK,
];

/// What `ranges` takes.
const RANGES: [Parameter<'static>; 5] = [
    Parameter {
        name: "db",
        kind: Optional("FILE"),
        help: "The file of the book; or else --control",
    },
    Parameter {
        name: "control",
        kind: Optional("PATH"),
        help: "The control socket's file of a host that runs; or else --db",
    },
    Parameter {
        name: "within",
        kind: Optional("SECONDS"),
        help: "How long the host's answer may take, 0 to 999999, 0 for ever [default: 60]",
    },
    Parameter {
        name: "set",
        kind: Required("LIST"),
        help: "The file of the list that becomes the ranges",
    },
    Parameter {
        name: "dry-run",
        kind: Flag,
        help: "Only the event lines are written that would be taken",
    },
];

/// What `pending` takes.
const PENDING: [Parameter<'static>; 4] = [
    BOOK,
    Parameter {
        name: "day",
        kind: Optional("YYYY-MM-DD"),
        help: "The business day of the requests [default: all days]",
    },
    Parameter {
        name: "issuers",
        kind: Optional("FILE"),
        help: ANSWERING,
    },
    Parameter {
        name: "at",
        kind: Optional("MOMENT"),
        help: "The moment of the answers, 946684800 to 4102444799 [default: the clock's]",
    },
];

/// What `show` takes.
const SHOW: [Parameter<'static>; 3] = [
    HEX_INPUT,
    Parameter {
        name: "json",
        kind: Flag,
        help: "The output is JSON, an object a message",
    },
    Parameter {
        name: "whole",
        kind: Flag,
        help: "With --json: what is masked else, card numbers too, stands whole",
    },
];

/// What `make` takes.
const MAKE: [Parameter<'static>; 3] = [
    Parameter {
        name: "hex",
        kind: Flag,
        help: "The output is lines, each a message in hexadecimal",
    },
    Parameter {
        name: "event",
        kind: Optional("MOMENT"),
        help: "The output is event lines: the messages come then, 946684800 to 4102444799",
    },
    Parameter {
        name: "json",
        kind: Flag,
        help: "The input is JSON, an object a message, each on its line",
    },
];

/// What `ask` takes.
const ASK: [Parameter<'static>; 4] = [
    Parameter {
        name: "port",
        kind: Required("P"),
        help: "The port at which the host listens, 1 to 65535",
    },
    Parameter {
        name: "address",
        kind: Optional("ADDRESS"),
        help: "The IPv4 address at which it listens [default: 127.0.0.1]",
    },
    Parameter {
        name: "within",
        kind: Optional("SECONDS"),
        help: "How long a reply may take, 0 to 999999, 0 for ever [default: 30]",
    },
    Parameter {
        name: "repeat",
        kind: Optional("N"),
        help: "How often the one message is sent, 1 to 1000000, its trace number counted up",
    },
];

/// What `tell` takes.
const TELL: [Parameter<'static>; 2] = [
    Parameter {
        name: "path",
        kind: Place("PATH"),
        help: "The socket's file",
    },
    Parameter {
        name: "within",
        kind: Optional("SECONDS"),
        help: "How long an answer may take, 0 to 999999, 0 for ever [default: 60]",
    },
];

/// What `explain` takes.
const EXPLAIN: [Parameter<'static>; 6] = [
    Parameter {
        name: "db",
        kind: Optional("FILE"),
        help: FILE_OR_MEMORY,
    },
    Parameter {
        name: "events",
        kind: Optional("FILE"),
        help: "The file of event lines that a new book takes first [default: none]",
    },
    Parameter {
        name: "limit",
        kind: Optional("N"),
        help: LIMIT_OF_NEW,
    },
    Parameter {
        name: "day",
        kind: Optional("YYYY-MM-DD"),
        help: FIRST_DAY_OF_NEW,
    },
    HEX_INPUT,
    Parameter {
        name: "at",
        kind: Optional("MOMENT"),
        help: "The moment at which messages come, 946684800 to 4102444799 [default: the clock's]",
    },
];

/// What `status` takes.
const STATUS: [Parameter<'static>; 1] = [BOOK];

/// What `audit` takes.
const AUDIT: [Parameter<'static>; 2] = [
    BOOK,
    Parameter {
        name: "events",
        kind: Optional("FILE"),
        help: "The file of event lines that the book took [default: they are sought in its rows]",
    },
];

/// What `page` takes.
const PAGE: [Parameter<'static>; 2] = [
    Parameter {
        name: "control",
        kind: Required("PATH"),
        help: "The socket's file at which the host takes control connections",
    },
    Parameter {
        name: "port",
        kind: Required("P"),
        help: "The port of this machine at which the page is, 1 to 65535",
    },
];

/// The commands, in the order in which the help has them.
const COMMANDS: [CommandText<'static>; 21] = [
    CommandText {
        name: "init",
        about: help::ABOUT_INIT,
        more: help::MORE_OF_INIT,
        parameters: &INIT,
    },
    CommandText {
        name: "migrate",
        about: help::ABOUT_MIGRATE,
        more: help::MORE_OF_MIGRATE,
        parameters: &MIGRATE,
    },
    CommandText {
        name: "once",
        about: help::ABOUT_ONCE,
        more: help::MORE_OF_ONCE,
        parameters: &ONCE,
    },
    CommandText {
        name: "listen",
        about: help::ABOUT_LISTEN,
        more: help::MORE_OF_LISTEN,
        parameters: &LISTEN,
    },
    CommandText {
        name: "replay",
        about: help::ABOUT_REPLAY,
        more: help::MORE_OF_REPLAY,
        parameters: &REPLAY,
    },
    CommandText {
        name: "clearing",
        about: help::ABOUT_CLEARING,
        more: help::MORE_OF_CLEARING,
        parameters: &CLEARING,
    },
    CommandText {
        name: "report",
        about: help::ABOUT_REPORT,
        more: help::MORE_OF_REPORT,
        parameters: &REPORT,
    },
    CommandText {
        name: "statement",
        about: help::ABOUT_STATEMENT,
        more: help::MORE_OF_STATEMENT,
        parameters: &STATEMENT,
    },
    CommandText {
        name: "find",
        about: help::ABOUT_FIND,
        more: help::MORE_OF_FIND,
        parameters: &FIND,
    },
    CommandText {
        name: "holds",
        about: help::ABOUT_HOLDS,
        more: help::MORE_OF_HOLDS,
        parameters: &HOLDS,
    },
    CommandText {
        name: "list",
        about: help::ABOUT_LIST,
        more: help::MORE_OF_LIST,
        parameters: &LIST,
    },
    CommandText {
        name: "ranges",
        about: help::ABOUT_RANGES,
        more: help::MORE_OF_RANGES,
        parameters: &RANGES,
    },
    CommandText {
        name: "pending",
        about: help::ABOUT_PENDING,
        more: help::MORE_OF_PENDING,
        parameters: &PENDING,
    },
    CommandText {
        name: "show",
        about: help::ABOUT_SHOW,
        more: help::MORE_OF_SHOW,
        parameters: &SHOW,
    },
    CommandText {
        name: "make",
        about: help::ABOUT_MAKE,
        more: help::MORE_OF_MAKE,
        parameters: &MAKE,
    },
    CommandText {
        name: "ask",
        about: help::ABOUT_ASK,
        more: help::MORE_OF_ASK,
        parameters: &ASK,
    },
    CommandText {
        name: "explain",
        about: help::ABOUT_EXPLAIN,
        more: help::MORE_OF_EXPLAIN,
        parameters: &EXPLAIN,
    },
    CommandText {
        name: "tell",
        about: help::ABOUT_TELL,
        more: help::MORE_OF_TELL,
        parameters: &TELL,
    },
    CommandText {
        name: "status",
        about: help::ABOUT_STATUS,
        more: help::MORE_OF_STATUS,
        parameters: &STATUS,
    },
    CommandText {
        name: "audit",
        about: help::ABOUT_AUDIT,
        more: help::MORE_OF_AUDIT,
        parameters: &AUDIT,
    },
    CommandText {
        name: "page",
        about: help::ABOUT_PAGE,
        more: help::MORE_OF_PAGE,
        parameters: &PAGE,
    },
];

/// The program, if there is memory for it.
pub(crate) fn program<'a>(alloc: Global) -> Result<Command<'a>, AllocError>
    ensures { Makes result program }
{
    with_commands(alloc, top(alloc), &COMMANDS)
}

/// The program without commands.
fn top<'a>(alloc: Global) -> Command<'a>
    ensures { app_of result ≡ acqd }
{
    Command::new(alloc, "acqd")
        .version(VERSION)
        .about(help::ABOUT)
        .subcommand_required(true)
        .arg_required_else_help(false)
}

/// A program with these commands behind those that it has.
fn with_commands<'a>(
    alloc: Global,
    mut program: Command<'a>,
    texts: &[CommandText<'a>],
) -> Result<Command<'a>, AllocError>
    requires { are_plain texts.now ≡ true }
    ensures { Makes result (with_commands (app_of program.entry) texts.now) }
{
    for text in texts {
        program = program.subcommand(command(alloc, text)?)?;
    }
    Ok(program)
}

/// A command with its help, and all that it takes.
fn command<'a>(alloc: Global, text: &CommandText<'a>) -> Result<Command<'a>, AllocError>
    ensures { Makes result (with_parameters (new_app text.now.name.now) text.now.parameters.now) }
{
    let mut command = bare_command(alloc, text);
    for parameter in text.parameters {
        command = command.arg(arg_of(alloc, parameter))?;
    }
    Ok(command)
}

/// A command without options, with its help.
fn bare_command<'a>(alloc: Global, text: &CommandText<'a>) -> Command<'a>
    ensures { app_of result ≡ new_app text.now.name.now }
{
    let command = Command::new(alloc, text.name);
    let command = command.about(text.about);
    command.after_help(text.more)
}

/// What a command takes, as the crate `clap` has it.
fn arg_of<'a>(alloc: Global, parameter: &Parameter<'a>) -> Arg<'a>
    ensures rule { rule_of result ≡ rule_of_parameter parameter.now }
    ensures own { result.global ≡ false }
{
    let name = parameter.name;
    let arg = Arg::new(alloc, name).help(parameter.help);
    match parameter.kind {
        Optional(value) => arg.long(name).value_name(value).action(ArgAction::Set),
        Required(value) => {
            let arg = arg.long(name).value_name(value).action(ArgAction::Set);
            arg.required(true)
        }
        Repeated(value) => arg.long(name).value_name(value).action(ArgAction::Append),
        Place(value) => arg.value_name(value).action(ArgAction::Set).required(true),
        Flag => arg.long(name).action(ArgAction::SetTrue),
    }
}
