//! Options that have a value.

use acq_faults::ReportKind;
use std::fmt;

/// An option that has a value. Its text is its name on the command line.
#[derive(Clone, Copy, Debug, PartialEq, Eq)]
pub enum OptionName {
    /// The file of the book.
    Db,
    /// How many messages of one merchant a business day admits.
    Limit,
    /// The first business day of a new book, or the day of a report.
    Day,
    /// How many events are taken at once.
    Group,
    /// The merchant that is asked about, or one of several.
    Merchant,
    /// The moment at which something is.
    At,
    /// The port that is listened on, or that a host listens on.
    Port,
    /// The address that is listened on, or that a host listens on.
    Address,
    /// How many connections are served.
    Count,
    /// For how many seconds a connection may be silent.
    Idle,
    /// How many seconds a frame may take.
    FrameWithin,
    /// For how many seconds a connection may be there once the host was asked to end.
    StopWithin,
    /// For how many seconds a terminal may wait for its issuer's answer.
    AnswerWithin,
    /// For how many seconds it may wait for a gateway where none is connected.
    GatewayWithin,
    /// How many connections are served at once.
    Together,
    /// How many of them may come from one address.
    FromOneAddress,
    /// The file that says what issuers answer.
    Issuers,
    /// The socket's file at which a gateway to issuers connects.
    Gateway,
    /// The socket's file at which control connections come.
    Control,
    /// The file that takes a log.
    Log,
    /// How many bytes that file has at most.
    LogBytes,
    /// How many seconds an answer of a host, or its reply, may take.
    Within,
    /// The moment at which messages that are made come.
    Event,
    /// The file of events that a new book takes first.
    Events,
    /// How often a message is sent.
    Repeat,
    /// That cards are shown whole.
    Whole,
    /// The path of a socket's file.
    Path,
    /// What is listed.
    What,
    /// The reference of a request that is looked for, where nothing else is.
    Reference,
    /// The terminal of such a request.
    Terminal,
    /// Its trace number.
    Trace,
    /// The last digits of its card number.
    CardEnds,
    /// The last day of a statement.
    To,
    /// The file of a list of ranges.
    Set,
    /// A day of which a report is asked for.
    Report(ReportKind),
}

impl fmt::Display for OptionName {
    ghost use Rattle.std.specs.Prelude.{Some};
    ghost use Rattle.acq_program.specs.Options.{name_of_option};

    ghost output = { λ option. Some (name_of_option option) };

    fn fmt<W: fmt::Write>(&self, f: &mut fmt::Formatter<W>) -> fmt::Result {
        f.write_str(match self {
            OptionName::Db => "--db",
            OptionName::Limit => "--limit",
            OptionName::Day => "--day",
            OptionName::Group => "--group",
            OptionName::Merchant => "--merchant",
            OptionName::At => "--at",
            OptionName::Port => "--port",
            OptionName::Address => "--address",
            OptionName::Count => "--count",
            OptionName::Idle => "--idle",
            OptionName::FrameWithin => "--frame-within",
            OptionName::StopWithin => "--stop-within",
            OptionName::AnswerWithin => "--answer-within",
            OptionName::GatewayWithin => "--gateway-within",
            OptionName::Together => "--together",
            OptionName::FromOneAddress => "--from-one-address",
            OptionName::Issuers => "--issuers",
            OptionName::Gateway => "--gateway",
            OptionName::Control => "--control",
            OptionName::Log => "--log",
            OptionName::LogBytes => "--log-bytes",
            OptionName::Within => "--within",
            OptionName::Event => "--event",
            OptionName::Events => "--events",
            OptionName::Repeat => "--repeat",
            OptionName::Whole => "--whole",
            OptionName::Path => "PATH",
            OptionName::What => "WHAT",
            OptionName::Reference => "--reference",
            OptionName::Terminal => "--terminal",
            OptionName::Trace => "--trace",
            OptionName::CardEnds => "--card-ends",
            OptionName::To => "--to",
            OptionName::Set => "--set",
            OptionName::Report(ReportKind::Clearing) => "--clearing",
            OptionName::Report(ReportKind::Settlement) => "--report",
        })
    }
}
