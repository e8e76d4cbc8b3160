//! What the program's help says of it and of each command.

pub(crate) const ABOUT: &str = "An acquirer host for cards: ISO 8583:1987 in, replies out.

A book holds merchants, terminals, card ranges, requests, holds, postings and reconciliations. It is
kept in a file, which `acqd init` makes; `once` and `replay` without a file work on a book of their
own, which is kept in memory and given back at the end.";

pub(crate) const ABOUT_INIT: &str = "Makes a new book in a file";

pub(crate) const MORE_OF_INIT: &str = "\
The file is a database of SQLite; its log stands beside it, under the same name with -wal behind it,
and the two are one: move and copy them together. Where the file holds a book already, or another
database that isn't empty, it is left as it is.

With --sums each page of the file has a sum, as SQLite's extension cksumvfs keeps it: a page that
the disk changed is told as 2 when it is read, and not used. sqlite3 without that extension may read
and dump such a file; what it changes, vacuums or copies by .backup is refused with 2.

The status is 0 where all is well, 1 for a fault, 2 for wrong usage, 3 where memory ran out or the
file can't be used. A fault is one line on standard error:
  acqd: 1 Memory
  acqd: 2 Store                    the file can't be opened or written
  acqd: 40 NotABook                the file isn't empty

Example:
  acqd init --db book.db --limit 999999 --day 2024-05-01";

pub(crate) const ABOUT_MIGRATE: &str = "Migrates the book of an earlier version in a file";

pub(crate) const MORE_OF_MIGRATE: &str = "\
Books of version 1 have card ranges of six digits, those of version 2 of eight, as issuers are
numbered since ISO/IEC 7812-1:2017. Each range LOW to HIGH becomes LOW00 to HIGH99, which are the
same cards; all else stays as it is. A stop at any moment leaves the whole book of version 1 or the
whole one of version 2, so that the command may be called again. Take a copy first: no command leads
back.

The status is 0 where all is well, 1 for a fault, 2 for wrong usage, 3 where memory ran out or the
file can't be used. A fault is one line on standard error:
  acqd: 1 Memory
  acqd: 2 Store                    the file can't be opened, read or written
  acqd: 40 NotABook                the file holds no book
  acqd: 41 OtherVersion VERSION    the file holds a book of this other version: with 2 nothing is
                                   left to do

Example:
  acqd migrate --db book.db";

pub(crate) const ABOUT_ONCE: &str =
    "Answers the frames on standard input with reply frames on standard output";

pub(crate) const MORE_OF_ONCE: &str = "\
A frame is two bytes of length, high byte first, and then so many bytes of a message, 1 to 4,096.
Each is answered as soon as it is whole, and its reply is out before more is read. With --db they
are taken over the book in this file, where what they change is in the file before the reply goes
out. Without it nobody is enrolled: network management (0800 and 0801: echo tests, sign-ons and
sign-offs) is answered, a merchant's request gets code 03, or 30 where it is malformed, and any
other type gets no reply. MOMENT counts seconds since 1970-01-01 00:00:00 UTC.

With --issuers this file stands in for the cards' issuers: a record of CSV for each card,
`CARD,approved,ID`, `CARD,declined,CODE` or `CARD,none,`, of which the first with a card decides.
Without it, and for a card that isn't there, no issuer can be reached, so what one is asked for gets
code 91.

The status is 0 where all is well, 1 for a fault, 2 for wrong usage, 3 where memory ran out or the
file failed. A fault is one line on standard error, and what was written before it stands:
  acqd: 1 Memory
  acqd: 2 Store                    the file can't be opened, read or written
  acqd: 23 BadLine RECORD          this record of the issuers' file is out of its form
  acqd: 40 NotABook                the file holds no book
  acqd: 41 OtherVersion VERSION    the file holds a book of this other version
  acqd: 50 BadLength               a frame's length is 0 or above 4,096
  acqd: 51 Ended                   the input ends inside a frame
  acqd: 52 Undecodable FAULT ELEMENT   a frame spells no message
  acqd: 53 Read                    a read failed, of the input or the issuers' file
  acqd: 54 Write BYTES             a write failed after so many bytes of a reply's frame

Example: an echo test
  printf '\\000\\067%s' 0800822000000000000004000000000000000101120000000001301 |
      acqd once | od -c";

pub(crate) const ABOUT_LISTEN: &str = "Answers the frames of connections over TCP";

pub(crate) const MORE_OF_LISTEN: &str = "\
Connections are taken at this port of 127.0.0.1, so that a proxy on the same machine can stand in
front; or, with --address, of another address of this machine (0.0.0.0 is all of them), for a proxy
on another one. Nothing is encrypted: who can reach that address can send messages, and who can read
the network reads card numbers, so it belongs to a network of the hosts and their proxy alone, or
behind TLS. The frames of each are answered as `once` answers those on standard input; then the next
one is served. With --together M, up to M connections are served at once, one message of each in
turn, so that none waits for another one's bytes. What they change is in the file before the reply
goes out; a stop at any moment leaves all events so far, and may leave a request without its
issuer's answer, which `acqd pending` then writes.

The file of --issuers is as for `once`; a record may have one more field, the milliseconds that the
answer takes. With --gateway PATH issuers are asked over this Unix socket's file, which its owner
alone may use: docs/ISSUERS.md. Where no gateway is connected, a request waits for one for the
SECONDS of --gateway-within, and then gets code 91, as where no issuer can be reached. With
--end-waiting each request that waits in the book for its issuer's answer is ended first, without
one, and standard error says how many were.

With --control PATH, control connections are taken at this Unix socket's file, too, which its owner
alone may open. Each line gets its answer: an event line, where `now` may stand for the moment, the
line that `replay` writes; `end,DAY` cuts over if that is the business day; `clearing,DAY`,
`report,DAY`, `pending,DAY`, `holds,MERCHANT,MOMENT`, `list,WHAT`, `status` and `metrics` get the
line `text N` and the N bytes of the text; a bad line or a refused text its fault; `reopen` opens
the log anew; and `stop` ends the program, once what was answered is written, or after
--stop-within. `acqd tell PATH` sends such lines. With --log FILE, what operators want to see is put
behind what this file holds, in lines, up to --log-bytes; one that isn't there is made for its owner
alone. With --log - the lines go to standard error. A line that would wait, or has no room, is lost
and counted.

A connection that is silent for the SECONDS of --idle, or takes nothing of a reply for so long, is
closed as one whose read or write failed. So is one whose frame takes longer than --frame-within,
from its first byte to its last. A request whose issuer takes longer than --answer-within gets code
91, as where no issuer can be reached. While all M places are taken and another connection waits,
one over which no message of an enrolled terminal was answered makes room, the one that has been
without the longest first; another one keeps its place for --idle behind the last such message. With
--from-one-address N, no more than N connections of one address are served at once, and others are
closed. With --proxy-protocol each connection begins with the header that HAProxy sends with
`send-proxy` or `send-proxy-v2`; the log and that bound go by the address that it names.

A connection's fault is one line on standard error, and the next one is served. A line that can't go
out at once is dropped, and the next one that goes out says how many were. 1 and 2 end the program.
The status is 0 where all connections were served, 1 for another fault, 2 for wrong usage, 3 where
memory ran out or the file failed:
  acqd: 1 Memory
  acqd: 2 Store                    the file can't be opened, read or written
  acqd: 23 BadLine RECORD          this record of the issuers' file is out of its form
  acqd: 40 NotABook                the file holds no book
  acqd: 41 OtherVersion VERSION    the file holds a book of this other version
  acqd: 50 BadLength               a frame's length is 0 or above 4,096
  acqd: 51 Ended                   a connection ends inside a frame
  acqd: 52 Undecodable FAULT ELEMENT   a frame spells no message
  acqd: 53 Read                    a read failed, or the port, a socket's file, the log or a
                                   connection can't be had, or a connection was silent, or a frame
                                   took, too long
  acqd: 54 Write BYTES             a write failed after so many bytes of a reply's frame
  acqd: 56 NoProxyHeader           with --proxy-protocol: a connection begins with no such header
  acqd: 65 RowsMissing ROWS        a gateway knows of more rows than the book has, so many

Example:
  acqd listen --db book.db --port 8583 --issuers issuers.csv";

pub(crate) const ABOUT_REPLAY: &str =
    "Takes the event lines on standard input, and writes a line of what comes of each";

pub(crate) const MORE_OF_REPLAY: &str = "\
An event line is a record of six fields of CSV, with no header line; fields not used are empty:
  addrange,LOW,HIGH,ISSUER,HOLD,       an issuer's card range, and how many days a hold lasts
  droprange,LOW,HIGH,,,                no such range any more
  enrol,MERCHANT,CURRENCY,FIRST,,      a merchant, its currency and its first reference
  terminal,MERCHANT,TERMINAL,,,        a terminal of a merchant
  frame,MOMENT,HEX,,,                  a terminal's message, in hexadecimal
  answer,MOMENT,MERCHANT,REFERENCE,VERDICT,TEXT
                                       an issuer's answer to what was asked: `approved` and an
                                       authorization id, `declined` and a code, or `none`
  cutover,MOMENT,,,,                   the business day ends, and the next begins
LOW and HIGH are the first eight digits of card numbers. MOMENT counts seconds since 1970-01-01
00:00:00 UTC.

What comes of an event is one line:
  reply MESSAGE                        this goes to the terminal
  ask MERCHANT REFERENCE CARD AMOUNT ISSUER
                                       this is asked of the issuer, whose answer is an event
  done                                 it is in the book
  refused NUMBER ..                    it isn't: 20 to 22 a range, 30 and 31 a message, 32 and 33 a
                                       repeat or an answer come late, 34 and 35 an answer, 36 and 37
                                       a merchant, 38 the last day

With --db the book is the one in this file, and --limit and --day are not used. Each event is in the
file, whole, before its line is written; a stop at any moment leaves all events so far.

With --group N events are taken N at a time, which is faster where many are imported into a file.
Each group is put into the file as one, whole or not at all, and its lines are written then, before
the next group is taken. A stop at any moment leaves whole groups; what was written is never ahead
of the file, and behind it by one group at most.

With --clearing or --report these texts are written in place of the lines, once all events are
taken: first the clearing files in the order given, then the settlement reports.

All lines are read before the first event is taken. The status is 0 where all is well, 1 for a
fault, 2 for wrong usage, 3 where memory ran out or the file failed. A fault is one line on standard
error, and what was written before it stands:
  acqd: 1 Memory
  acqd: 2 Store                        the file can't be opened, read or written
  acqd: 40 NotABook                    the file holds no book
  acqd: 41 OtherVersion VERSION        the file holds a book of this other version
  acqd: 53 Read                        a read failed; no event was taken
  acqd: 54 Write BYTES                 a write failed after so many bytes of a line or a report
  acqd: 60 DayNotOver                  the business day of this report isn't over
  acqd: 61 StillPending REQUESTS       so many requests of that day have no answer yet
  acqd: 62 BadLine RECORD              this record is out of its form; no event was taken

Examples:
  acqd replay --day 2024-05-01 < examples/day.csv
  acqd replay --day 2024-05-01 --clearing 2024-05-01 < examples/day.csv
  acqd replay --db book.db < examples/day.csv
  acqd replay --db book.db --group 1000 < examples/day.csv";

pub(crate) const ABOUT_CLEARING: &str = "Writes the clearing file of a business day that is over";

pub(crate) const ABOUT_REPORT: &str = "Writes the settlement report of a business day that is over";

pub(crate) const MORE_OF_CLEARING: &str = "\
The text goes to standard output. Nothing in the book is changed.

The status is 0 where all is well, 1 for a fault, 2 for wrong usage, 3 where memory ran out or the
file failed. A fault is one line on standard error, and what was written before it stands:
  acqd: 1 Memory
  acqd: 2 Store                    the file can't be opened or read
  acqd: 40 NotABook                the file holds no book
  acqd: 41 OtherVersion VERSION    the file holds a book of this other version
  acqd: 54 Write BYTES             a write failed after so many bytes of the text
  acqd: 60 DayNotOver              the business day isn't over
  acqd: 61 StillPending REQUESTS   so many requests of that day have no answer yet; `acqd pending`
                                   writes answers";

pub(crate) const MORE_OF_REPORT: &str = "\
The text goes to standard output. Nothing in the book is changed. With --csv it is CSV with a header
line: a record for each merchant with its currency, its counts and amounts, what the acquirer owes
it (below zero if it owes the acquirer), and what its last reconciliation found; then a record for
each currency with the sums.

The status is 0 where all is well, 1 for a fault, 2 for wrong usage, 3 where memory ran out or the
file failed. A fault is one line on standard error, and what was written before it stands:
  acqd: 1 Memory
  acqd: 2 Store                    the file can't be opened or read
  acqd: 40 NotABook                the file holds no book
  acqd: 41 OtherVersion VERSION    the file holds a book of this other version
  acqd: 54 Write BYTES             a write failed after so many bytes of the text
  acqd: 60 DayNotOver              the business day isn't over
  acqd: 61 StillPending REQUESTS   so many requests of that day have no answer yet; `acqd pending`
                                   writes answers

Examples:
  acqd report --db book.db --day 2024-05-01
  acqd report --db book.db --day 2024-05-01 --csv > settlement.csv";

pub(crate) const ABOUT_STATEMENT: &str =
    "Writes what merchants are owed, and what their tills claimed";

pub(crate) const MORE_OF_STATEMENT: &str = "\
For each merchant and day: what each terminal posted, by leg (credits, credit reversals, debits,
debit reversals), amounts first and counts in brackets; the merchant's sums; each reconciliation,
with what the till claimed and what the host had then; and who owes whom. At the end stand the sums
by currency. Amounts are in minor units. With --csv each of these lines is a record. Any day may be
asked for, today's too. Nothing in the book is changed.

The status is 0 where all is well, 1 for a fault, 2 for wrong usage, 3 where memory ran out or the
file failed. A fault is one line on standard error, and what was written before it stands:
  acqd: 1 Memory
  acqd: 2 Store                    the file can't be opened or read
  acqd: 37 NoSuchMerchant          a merchant isn't enrolled
  acqd: 40 NotABook                the file holds no book
  acqd: 41 OtherVersion VERSION    the file holds a book of this other version
  acqd: 54 Write BYTES             a write failed after so many bytes of the text

Examples:
  acqd statement --db book.db --day 2024-05-01
  acqd statement --db book.db --merchant MERCHANT0000001 --day 2024-05-01 --to 2024-05-31 --csv";

pub(crate) const ABOUT_FIND: &str = "Writes what became of a request";

pub(crate) const MORE_OF_FIND: &str = "\
The request is asked for by its reference, by its terminal and trace number, or by the last four
digits of its card and the business day. What follows it stands behind it: a hold's completion,
a reversal. For each of them a line says what it was, one what the reply was or that it waits for
its issuer, one where it stands now, and one what was posted; each begins with its business day, its
terminal and its trace number. Card numbers are masked. Nothing in the book is changed.

The status is 0 where all is well, 1 for a fault, 2 for wrong usage, 3 where memory ran out or the
file failed. A fault is one line on standard error, and what was written before it stands:
  acqd: 1 Memory
  acqd: 2 Store                    the file can't be opened or read
  acqd: 37 NoSuchMerchant          the merchant isn't enrolled
  acqd: 40 NotABook                the file holds no book
  acqd: 41 OtherVersion VERSION    the file holds a book of this other version
  acqd: 54 Write BYTES             a write failed after so many bytes of the text

Examples:
  acqd find --db book.db --merchant MERCHANT0000001 --reference 1
  acqd find --db book.db --merchant MERCHANT0000001 --terminal TERM0001 --trace 000001
  acqd find --db book.db --merchant MERCHANT0000001 --card-ends 1111 --day 2024-05-01";

pub(crate) const ABOUT_HOLDS: &str = "Writes the open holds of a merchant at a moment";

pub(crate) const MORE_OF_HOLDS: &str = "\
A hold is an approved authorization that was neither completed nor reversed, up to its last second.
They are CSV with a header line, in order of reference, the card numbers masked. MOMENT counts
seconds since 1970-01-01 00:00:00 UTC. Nothing in the book is changed.

The status is 0 where all is well, 1 for a fault, 2 for wrong usage, 3 where memory ran out or the
file failed. A fault is one line on standard error, and what was written before it stands:
  acqd: 1 Memory
  acqd: 2 Store                    the file can't be opened or read
  acqd: 37 NoSuchMerchant          the merchant isn't enrolled
  acqd: 40 NotABook                the file holds no book
  acqd: 41 OtherVersion VERSION    the file holds a book of this other version
  acqd: 54 Write BYTES             a write failed after so many bytes of the text

Example:
  acqd holds --db book.db --merchant MERCHANT0000001 --at 1714555800";

pub(crate) const ABOUT_LIST: &str = "Writes the merchants, the terminals or the ranges of a book";

pub(crate) const MORE_OF_LIST: &str = "\
The text is CSV with a header line: merchants in order of their bytes, the terminals of each in
order of theirs, or ranges in order of their lower ends. Nothing in the book is changed. A host that
runs is asked `list,merchants`, `list,terminals` or `list,ranges` by `acqd tell`.

The status is 0 where all is well, 1 for a fault, 2 for wrong usage, 3 where memory ran out or the
file failed. A fault is one line on standard error, and what was written before it stands:
  acqd: 1 Memory
  acqd: 2 Store                    the file can't be opened or read
  acqd: 40 NotABook                the file holds no book
  acqd: 41 OtherVersion VERSION    the file holds a book of this other version
  acqd: 54 Write BYTES             a write failed after so many bytes of the text

Example:
  acqd list terminals --db book.db";

pub(crate) const ABOUT_RANGES: &str = "Makes a list the ranges of a book";

pub(crate) const MORE_OF_RANGES: &str = "\
LIST is CSV with no header line, a record for each range: LOW,HIGH,ISSUER,HOLD. LOW and HIGH are the
first eight digits of card numbers, HOLD is how many days a hold lasts. The list is read whole
first. Then each range of it that is new is added, and right before it those of the book are dropped
that go and don't lie behind it; at the end the others are dropped that aren't in the list. One
whose issuer or hold days are others is dropped and added. These event lines go to standard output,
as `acqd replay` takes them. With --dry-run nothing in the book is changed.

With --db FILE it is the book in a file. Events are taken a thousand at a time, and the lines are
written once all are in the file. A stop leaves whole thousands; the same command then does the
rest.

With --control PATH it is the book of the host that runs and takes control connections at PATH. The
host is asked for its ranges and told the events, the next one once the one before is done; its line
is written then. So cards whose range is replaced have no issuer for a few events alone. What the
host says of an event that isn't done, as where another changes its ranges meanwhile, goes to
standard error, and no further one is told; the same command then does the rest.

The status is 0 where all is well, 1 for a fault, 2 for wrong usage, 3 where memory ran out or the
file failed. A fault is one line on standard error:
  acqd: 1 Memory
  acqd: 2 Store                    the book's file can't be opened, read or written
  acqd: 20 BadRange                a range's values are bad: low above high, hold days not 1 to 31
  acqd: 21 Overlap LOW HIGH        a range overlaps this one of the list
  acqd: 23 BadLine RECORD          this record of the list is out of its form
  acqd: 40 NotABook                the file holds no book
  acqd: 41 OtherVersion VERSION    the file holds a book of this other version
  acqd: 50 BadLength               the host's answer has no form, or is no listing of ranges
  acqd: 51 Ended                   the host ended the connection before an answer was whole
  acqd: 53 Read                    the list can't be read; nobody listens at PATH; a read failed
  acqd: 54 Write BYTES             a write failed after so many bytes of the lines
  acqd: 55 Silent                  the host gave no answer within the SECONDS of --within

Examples:
  acqd ranges --db book.db --set ranges.csv
  acqd ranges --control host.control --set ranges.csv --dry-run";

pub(crate) const ABOUT_PENDING: &str =
    "Writes answers to the requests that wait for their issuer's";

pub(crate) const MORE_OF_PENDING: &str = "\
A request whose issuer was asked waits until the answer comes as an event. A stop of `listen` in
between leaves it so: its repeats get nothing, and its day can't be cleared. For each such request,
of all days or of one, a line goes to standard output that `acqd replay` takes as it stands, in the
order in which the requests came:
  answer,MOMENT,MERCHANT,REFERENCE,VERDICT,TEXT
Nothing in the book is changed until these lines are replayed. Put them into a file, and no pipe:
one program has a book at a time.

With --issuers the verdict is what this file says of the request's card, as for `once`. Without it,
and for a card that isn't there, it is `none`: the reply is then code 91, and nothing is posted.
MOMENT counts seconds since 1970-01-01 00:00:00 UTC.

The status is 0 where all is well, 1 for a fault, 2 for wrong usage, 3 where memory ran out or the
file failed. A fault is one line on standard error, and what was written before it stands:
  acqd: 1 Memory
  acqd: 2 Store                    the file can't be opened or read
  acqd: 23 BadLine RECORD          this record of the issuers' file is out of its form
  acqd: 40 NotABook                the file holds no book
  acqd: 41 OtherVersion VERSION    the file holds a book of this other version
  acqd: 53 Read                    the issuers' file can't be read
  acqd: 54 Write BYTES             a write failed after so many bytes of the text

Example:
  acqd pending --db book.db > answers.csv
  acqd replay --db book.db < answers.csv";

pub(crate) const ABOUT_SHOW: &str = "Shows the messages on standard input to a person";

pub(crate) const MORE_OF_SHOW: &str = "\
The messages stand on standard input as frames, as `acqd once` reads and writes them, or in lines,
as `acqd replay` reads and writes them; or with --hex as lines, each a message in hexadecimal. Each
is shown by its type, and by the number, the name and the content of each element, with what codes
mean; card numbers and tracks are masked, PIN blocks and chip data left out. Of a request for whose
elements the host replies 30 the first such element is told. What spells no message is shown by what
is wrong with it, and where, and the next is shown all the same.

With --json each message is an object of JSON on its line, for a program: its type, and the contents
of its elements by number, one character a byte. What is masked stays so; with --whole it stands
whole. Of lines that have no message nothing is written.

The status is 0 where all is well, 1 for a fault, 2 for wrong usage, 3 where memory ran out. A
fault is one line on standard error, and what was written before it stands:
  acqd: 1 Memory
  acqd: 50 BadLength               a frame's length is 0 or above 4,096
  acqd: 51 Ended                   the input ends inside a frame
  acqd: 53 Read                    a read failed
  acqd: 54 Write BYTES             a write failed after so many bytes of a message's text
  acqd: 62 BadLine LINE            this line holds no message in hexadecimal; nothing is shown

Examples: what comes back for an echo test
  acqd once < examples/echo.frame | acqd show
  acqd once < examples/echo.frame | acqd show --json";

pub(crate) const ABOUT_MAKE: &str = "Makes messages of text on standard input";

pub(crate) const MORE_OF_MAKE: &str = "\
The text has a line for each message's type, four digits, and behind it a line for each element: its
number, a blank and its content, as in `41 TERM0001`. An empty line ends a message, and a line that
begins with # says nothing. What `acqd show` prints is such a text, once the masked card number and
what else it hides is written out. Bitmaps and lengths are made. The messages go to standard output
as frames; with --hex as lines, each a message in hexadecimal; with --event as event lines for
`acqd replay`. All lines are read first, and where one is refused nothing is written. With --json
the text has an object of JSON on each line, as `acqd show --json --whole` writes them.

The status is 0 where all is well, 1 for a fault, 2 for wrong usage, 3 where memory ran out. A
fault is one line on standard error:
  acqd: 1 Memory
  acqd: 53 Read                    a read failed
  acqd: 54 Write BYTES             a write failed after so many bytes of the messages
  acqd: 62 BadLine LINE            this line is neither of a type nor of an element; or its element
                                   belongs to no message, or stands twice, or isn't shown
  acqd: 64 BadMessage LINE FAULT ELEMENT
                                   an element can't have this content: fault 4, it isn't in the
                                   profile; 6, its length; 7, a byte; or, with 6 0, the message
                                   whose type this line has is longer than 4,096 bytes

Example:
  acqd make < examples/sale.txt > sale.frame";

pub(crate) const ABOUT_ASK: &str =
    "Sends the messages on standard input to a host, and shows them and its replies";

pub(crate) const MORE_OF_ASK: &str = "\
The messages stand on standard input as frames, all of which are read before the first is sent. Each
is shown as `acqd show` shows it, and sent; its reply is waited for, and shown; then the next one is
sent, over the same connection. Where no reply comes within the SECONDS of --within, as none does to
a message that a host doesn't serve, a line says so, and the next one is sent all the same. What
comes late is shown as the reply to that one: its trace number says whose it is.

With --repeat the one message on standard input is sent N times, with its trace number, element 11,
one higher each time; behind 999999 comes 000001. Nothing is shown of them but, at the end, how many
replies came and how many have each response code, how long they took, and how many came a second. A
message without a reply ends that.

The status is 0 where each message got a reply, 1 for a fault, 2 for wrong usage, 3 where memory ran
out. A fault is one line on standard error, and what was written before it stands:
  acqd: 1 Memory
  acqd: 50 BadLength               a frame's length is 0 or above 4,096, on the input or of a reply;
                                   or with --repeat bytes stand behind the one frame
  acqd: 51 Ended                   the input ends inside a frame, or the host ended the connection
  acqd: 52 Undecodable FAULT ELEMENT   with --repeat the frame spells no message
  acqd: 53 Read                    nobody listens there, or a read failed
  acqd: 54 Write BYTES             a write failed after so many bytes, of a frame or of the text
  acqd: 55 Silent                  a message got no reply in time; those behind it were sent

Examples:
  acqd ask --port 8583 < examples/sale.frame
  acqd ask --port 8583 --repeat 1000 < examples/sale.frame";

pub(crate) const ABOUT_EXPLAIN: &str =
    "Says what the host would say to the events on standard input now, and why";

pub(crate) const MORE_OF_EXPLAIN: &str = "\
The input is event lines, as `acqd replay` reads them, or messages as frames, which come at the
moment of --at or now; with --hex it is lines, each a message in hexadecimal. All are read first.
Each is looked at by itself, over the book as it stands; nothing in the book is changed. Without
--db the book is a new one, behind the events of the file that --events names.

For a reply with another code than 00 a line has the code, the reason in a word, and the reason in
words; of a repeat the code is the one that was kept. Of all else the line is what `acqd replay`
would write. Below it, behind four blanks, stand the checks that the request passed, in their order,
and then the element that decided and what it was compared with.

The status is 0 where all is well, 1 for a fault, 2 for wrong usage, 3 where memory ran out or the
file failed. A fault is one line on standard error:
  acqd: 1 Memory
  acqd: 2 Store                    the file can't be opened or read
  acqd: 40 NotABook                the file holds no book
  acqd: 41 OtherVersion VERSION    the file holds a book of this other version
  acqd: 50 BadLength               a frame's length is 0 or above 4,096
  acqd: 51 Ended                   the input ends inside a frame
  acqd: 53 Read                    the file of --events can't be read, or a read failed
  acqd: 54 Write BYTES             a write failed after so many bytes of the text
  acqd: 62 BadLine RECORD          this record of the input or of --events is out of its form

Examples:
  acqd make < examples/sale.txt | acqd explain --db book.db
  acqd make < examples/sale.txt | acqd explain --events examples/setup.csv --day 2024-05-01";

pub(crate) const ABOUT_TELL: &str =
    "Sends the lines on standard input to a host, and writes its answers";

pub(crate) const MORE_OF_TELL: &str = "\
PATH is the socket's file at which `acqd listen --control PATH` takes control connections. Each line
is sent once the answer to the one before it is whole: an event line, where `now` may stand for the
moment; `end,DAY`, which cuts over if that is the business day; `clearing,DAY`, `report,DAY`,
`holds,MERCHANT,MOMENT`, `list,WHAT`, `pending,DAY`, `explain,HEX`, `status` or `metrics`; `reopen`,
for the log; or `stop`. An answer's line goes to standard output as it comes, and of a text its
bytes alone. A fault's line goes to standard error, and the lines behind it are sent all the same.

The status is 0 where no answer was a fault's line, 1 for a fault, 2 for wrong usage, 3 where memory
ran out. A fault of its own is one line on standard error, and no further line is sent:
  acqd: 1 Memory
  acqd: 50 BadLength               a line has 16,384 bytes or more, and isn't sent; or a text came
                                   without its length
  acqd: 51 Ended                   the host ended the connection before an answer was whole
  acqd: 53 Read                    nobody listens at PATH, or a read failed
  acqd: 54 Write BYTES             a write failed after so many bytes of a line, or of an answer
  acqd: 55 Silent                  the host gave no answer within the SECONDS of --within

Examples:
  echo end,2024-05-01 | acqd tell host.control
  echo clearing,2024-05-01 | acqd tell host.control > clearing.csv";

pub(crate) const ABOUT_STATUS: &str = "Writes the figures of the book in a file";

pub(crate) const MORE_OF_STATUS: &str = "\
The figures go to standard output, a line for each, its key and its value: the business day and its
limit; how many merchants, terminals and ranges there are; how many messages of the day count
against the limit; how many requests of each day wait for their issuer's answer. Nothing in the book
is changed. A host that runs is asked `status` by `acqd tell`.

The status is 0 where all is well, 1 for a fault, 2 for wrong usage, 3 where memory ran out or the
file failed. A fault is one line on standard error:
  acqd: 1 Memory
  acqd: 2 Store                    the file can't be opened or read
  acqd: 40 NotABook                the file holds no book
  acqd: 41 OtherVersion VERSION    the file holds a book of this other version
  acqd: 54 Write BYTES             a write failed after so many bytes of the text

Example:
  acqd status --db book.db";

pub(crate) const ABOUT_AUDIT: &str = "Says whether the book in a file is what a host wrote";

pub(crate) const MORE_OF_AUDIT: &str = "\
Events are sought in the book's rows, or read from FILE, and taken by a new book in memory; then
each row of each table of both books is compared. If none differs, `sound` goes to standard output:
the book is what a host makes of these events. Else the first row that differs does, with its table,
its number and what differs, as in
  requests 17: amount differs
  postings 8: missing
What events could have made is no difference: another range, another limit, a later business day.
FILE has the lines that `acqd replay` takes, from the first event on; with it each change is told.
The book in memory takes some kilobytes for each request. Nothing in the book is changed.

The status is 0 if the book is sound, 1 if a row differs or for a fault, 2 for wrong usage, 3 where
memory ran out or the file failed. A fault is one line on standard error:
  acqd: 1 Memory
  acqd: 2 Store                    the file can't be opened or read
  acqd: 40 NotABook                the file holds no book
  acqd: 41 OtherVersion VERSION    the file holds a book of this other version
  acqd: 53 Read                    FILE can't be read
  acqd: 54 Write BYTES             a write failed after so many bytes of the text
  acqd: 62 BadLine RECORD          a line of FILE is no event; records are counted from 1

Examples:
  acqd audit --db book.db
  acqd audit --db book.db --events day.csv";

pub(crate) const ABOUT_PAGE: &str = "Shows a page about a host to browsers of this machine";

pub(crate) const MORE_OF_PAGE: &str = "\
PATH is the socket's file at which `acqd listen --control PATH` takes control connections. The page
is at http://127.0.0.1:P/ and renews itself every five seconds: what needs a person, the business
day, places for terminals, what waits for its issuer, the day's sums by currency, and replies by
code and by time. It shows no card number, and nothing can be changed there. /metrics gives what the
host answers to `metrics`, as Prometheus reads it. Whoever asks, the host is asked once a second at
most. If it doesn't answer, the page says so.

It goes on until it is stopped. The status is 1 for a fault, 2 for wrong usage, 3 where memory ran
out. A fault is one line on standard error:
  acqd: 1 Memory
  acqd: 53 Read                    the port can't be listened at

Example:
  acqd page --control host.control --port 8590";
