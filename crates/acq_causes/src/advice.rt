//! What may be said of a fault without a look at the machine.

/// What an option's value has to be.
const VALUES: [(&str, &str); 29] = [
    (
        "--db",
        "a path; `acqd ranges` takes it, or --control PATH, not both",
    ),
    ("--limit", "1 to 999999, as in --limit 999999"),
    ("--day", DAY),
    ("--clearing", DAY),
    ("--report", DAY),
    ("--merchant", "1 to 15 characters, as element 42 has them"),
    (
        "--at",
        "seconds since 1970-01-01 UTC, 946684800 to 4102444799, as in --at 1714555800",
    ),
    (
        "--event",
        "seconds since 1970-01-01 UTC, 946684800 to 4102444799, as in --event 1714555800",
    ),
    ("--port", "1 to 65535, as in --port 8583"),
    ("--address", "an IPv4 address, as in --address 127.0.0.1"),
    ("--count", "1 to 999999, as in --count 1"),
    ("--together", "1 to 1024, as in --together 64"),
    (
        "--from-one-address",
        "1 to 1024, as in --from-one-address 8",
    ),
    ("--idle", SECONDS),
    ("--frame-within", SECONDS),
    ("--stop-within", SECONDS),
    ("--answer-within", SECONDS),
    (
        "--gateway-within",
        "1 to 6 digits of seconds, 0 for not at all, as in 60",
    ),
    ("--within", SECONDS),
    ("--repeat", "1 to 1000000, as in --repeat 1000"),
    ("--events", "a file for a new book, without --db"),
    ("--whole", "beside --json alone"),
    (
        "WHAT",
        "merchants, terminals or ranges, as in list merchants",
    ),
    (
        "--reference",
        "1 to 12 digits, or what else `acqd find --help` takes",
    ),
    ("--terminal", "1 to 8 characters, as element 41 has them"),
    ("--trace", "six digits, as in --trace 000001"),
    (
        "--card-ends",
        "the last four digits, as in --card-ends 1111",
    ),
    ("--to", "YYYY-MM-DD, not before --day, as in 2024-05-31"),
    (
        "--log-bytes",
        "1 to 15 digits, 0 for no bound, as in --log-bytes 1073741824",
    ),
];

const DAY: &str = "YYYY-MM-DD, 2000-01-01 to 2099-12-31, as in 2024-05-01";

const SECONDS: &str = "1 to 6 digits of seconds, 0 for ever, as in 60";

const PATH: &str = "a path that no other option names";

/// What is wrong with the value of an option.
pub(crate) fn of_value(option: &str) -> &'static str {
    for (name, words) in VALUES.iter() {
        if *name == option {
            return *words;
        }
    }
    PATH
}

/// What a fault of a connection says that a host serves, by its number.
pub(crate) fn of_connection(number: u64) -> Option<&'static str> {
    Some(match number {
        50 => "a connection sent a length of 0 or above 4096: it speaks TLS or another protocol",
        51 => "a connection ended inside a frame",
        52 => "a connection sent a frame that spells no message; `acqd show` says why",
        53 => "a connection couldn't be read, or was silent, or took for a frame, too long",
        54 => "a connection took nothing of a reply for too long, or left before it came",
        56 => "a connection has no header in front: the proxy has to send it, as `send-proxy-v2`",
        65 => "a gateway knows of rows that this book lacks: is it an old copy?",
        _ => return None,
    })
}

/// What a fault says, by its number, where that is all there is to say.
pub(crate) fn of_fault(number: u64) -> Option<&'static str> {
    Some(match number {
        1 => "memory ran out; a book takes more as it grows",
        37 => "no such merchant is enrolled",
        50 => "a frame's length is 0 or above 4096: two bytes, the high one first",
        51 => "the input ended inside a frame",
        52 => "a frame spells no message; `acqd show` says why",
        53 => "the input couldn't be read",
        54 => "the output couldn't be written: its reader left, or the disk is full",
        62 => "this record or line of the input is out of its form",
        64 => "the element's content is refused: 4 not in the profile, 6 its length, 7 a byte",
        _ => return None,
    })
}

/// What is wrong with a list of ranges, by the fault's number.
pub(crate) fn of_list(number: u64) -> Option<&'static str> {
    Some(match number {
        20 => "low is above high, hold days aren't 1 to 31, or an issuer isn't 1 to 11 digits",
        21 => "a further record has numbers of this range, too",
        23 => "each record is LOW,HIGH,ISSUER,HOLD, low and high of eight digits",
        _ => return None,
    })
}

/// What a fault of `tell` says, or one that a host answered it, by its number.
pub(crate) fn of_host(number: u64) -> Option<&'static str> {
    Some(match number {
        1 | 2 => "the host said so: look at its log, and at its machine's memory and disk",
        37 => "no such merchant is enrolled",
        50 => "a line of 16384 bytes or more isn't sent; or what answers is no host",
        51 => "the host ended before its answer was whole; whether it took the line isn't known",
        53 => "the input couldn't be read, or the connection to the host broke",
        54 => "the output couldn't be written, or the host took no more lines",
        55 => "the host didn't answer in time; --within SECONDS waits longer",
        60 => "the line `status` says which day it is; a cutover ends it",
        61 => "the line `pending,DAY` lists them, as lines to send",
        62 => "this line is out of its form, and changed nothing",
        63 => "that is the business day; another one was to be ended",
        _ => return None,
    })
}

/// What a fault of `ask` says, by its number.
pub(crate) fn of_asking(number: u64) -> Option<&'static str> {
    Some(match number {
        1 => "memory ran out",
        50 => "a length is 0 or above 4096; or with --repeat there is more than one frame",
        51 => "the input ended inside a frame, or the host ended the connection",
        52 => "this frame spells no message to count up; `acqd show` says why",
        53 => "the input couldn't be read, or the connection to the host broke",
        54 => "the output couldn't be written, or the host took no more",
        55 => "a message got no reply in time; --within SECONDS waits longer",
        _ => return None,
    })
}
