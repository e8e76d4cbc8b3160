//! What a fault is about, by what was asked for and what is found on the machine now.

use crate::advice::{of_asking, of_connection, of_fault, of_host, of_list, of_value};
use crate::asked::Asked;
use crate::cause::Cause;
use crate::explained::is_of_connection;
use crate::files::{
    why_no_host, why_no_port, why_no_socket, why_no_terminals_host, why_unread, why_unusable,
    why_unwritten,
};
use crate::lack::Lack;
use crate::signs::Signs;
use crate::told::Told;

/// What each record of a file of issuers' answers is.
const RECORDS: &str = "each record is CARD,approved,ID or CARD,declined,CODE or CARD,none,";

/// What a fault is about, if there is more to say than its line does.
pub(crate) fn cause_of(
    rt: &HostRuntime,
    asked: Asked<'_>,
    signs: &Signs,
    told: Told<'_>,
) -> Option<Cause> {
    match told {
        Told::BadValue(option) => Some(Cause::about(rt.alloc(), option, of_value(option))),
        Told::Fault(number, _) if is_of_connection(number, signs) => plain(of_connection(number)),
        Told::Fault(53, _) => match signs.lack.get() {
            Some(lack) => Some(cause_of_lack(rt, asked, lack)),
            None => cause_of_number(rt, asked, 53),
        },
        Told::Fault(number, _) => cause_of_number(rt, asked, number),
    }
}

/// What the fault of a number is about.
fn cause_of_number(rt: &HostRuntime, asked: Asked<'_>, number: u64) -> Option<Cause> {
    match asked.command() {
        "tell" => return plain(of_host(number)),
        "ask" => return plain(of_asking(number)),
        "ranges" if asked.value("--control").is_some() && of_list(number).is_none() => {
            return plain(of_host(number));
        }
        _ => {}
    }
    match of_fault(number) {
        Some(words) => Some(Cause::plain(words)),
        None => cause_in_file(rt, asked, number),
    }
}

/// A cause in these words, if there are any.
fn plain(words: Option<&'static str>) -> Option<Cause> {
    Some(Cause::plain(words?))
}

/// What a fault is about that has a file: a list of ranges, that of issuers' answers, or the book's.
fn cause_in_file(rt: &HostRuntime, asked: Asked<'_>, number: u64) -> Option<Cause> {
    let list = asked.value("--set");
    if list.is_some() {
        if let Some(words) = of_list(number) {
            return Some(Cause::of_value(rt.alloc(), list, words));
        }
    }
    let option = if number == 23 { "--issuers" } else { "--db" };
    let file = asked.value(option);
    let words = match number {
        2 => why_unusable(rt, file?),
        23 => RECORDS,
        40 => why_no_book(asked),
        41 => "`acqd migrate --db FILE` makes a book of version 1 one of version 2",
        60 => "`acqd status --db FILE` says which day it is; a cutover ends it",
        61 => "`acqd pending --db FILE` lists them, as lines for `acqd replay`",
        _ => return None,
    };
    Some(Cause::of_value(rt.alloc(), file, words))
}

/// Why there is no book, or none can be made.
fn why_no_book(asked: Asked<'_>) -> &'static str {
    if asked.command() == "init" {
        "something stands there, and stays as it is"
    } else {
        "no book stands there; `acqd init` makes one"
    }
}

/// What is in the way of what a command can't have.
fn cause_of_lack(rt: &HostRuntime, asked: Asked<'_>, lack: Lack) -> Cause {
    let about = match lack {
        Lack::Issuers => asked.value("--issuers"),
        Lack::Events => asked.value("--events"),
        Lack::Ranges => asked.value("--set"),
        Lack::Log => asked.value("--log"),
        Lack::Control => asked.value("--control"),
        Lack::Gateway => asked.value("--gateway"),
        Lack::Port(_) | Lack::TerminalsHost(_) => asked.value("--port"),
        Lack::Host(_) => asked.control_path(),
        Lack::SameFile => None,
    };
    let path = about.unwrap_or("");
    let words = match lack {
        Lack::Issuers | Lack::Events | Lack::Ranges => why_unread(rt, path),
        Lack::Log => why_unwritten(rt, path),
        Lack::Control | Lack::Gateway => why_no_socket(rt, path),
        Lack::Port(kind) => why_no_port(kind),
        Lack::Host(kind) => why_no_host(kind),
        Lack::TerminalsHost(kind) => why_no_terminals_host(kind),
        Lack::SameFile => "two of --db, --log, --control, --gateway and --issuers are one file",
    };
    Cause::of_value(rt.alloc(), about, words)
}
