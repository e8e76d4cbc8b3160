//! The texts that make the tables of a book. `specs/Schema.antt` says what each of them makes.

/// The version in force, whose ranges are of eight digits.
pub const VERSION: u32 = 2;

/// The version before it, whose ranges are of six digits. Its tables have the same texts.
pub const VERSION_OF_SIX_DIGITS: u32 = 1;

/// The book: one row with its version, how many messages of a merchant a day admits, and the day.
pub const BOOK: &str = "CREATE TABLE book (version INTEGER NOT NULL, max_a_day INTEGER NOT NULL, \
    day INTEGER NOT NULL) STRICT";

/// Merchants.
pub const MERCHANTS: &str = "CREATE TABLE merchants (merchant TEXT PRIMARY KEY, \
    currency TEXT NOT NULL, first INTEGER NOT NULL) STRICT";

/// Terminals.
pub const TERMINALS: &str = "CREATE TABLE terminals (merchant TEXT, terminal TEXT, \
    PRIMARY KEY (merchant, terminal)) STRICT";

/// Ranges, by `low`, which is the rowid.
pub const RANGES: &str = "CREATE TABLE ranges (low INTEGER PRIMARY KEY, high INTEGER NOT NULL, \
    issuer TEXT NOT NULL, hold_days INTEGER NOT NULL) STRICT";

/// Recorded requests. Nothing tests that a key comes once: it is a law, and the test took a third of
/// an open.
pub const REQUESTS: &str = "CREATE TABLE requests (merchant TEXT NOT NULL, \
    terminal TEXT NOT NULL, kind TEXT NOT NULL, trace TEXT NOT NULL, stamp TEXT NOT NULL, \
    essence TEXT NOT NULL, day INTEGER NOT NULL, status INTEGER NOT NULL, \
    admitted INTEGER NOT NULL, reference INTEGER, follows INTEGER, amount INTEGER NOT NULL, \
    leg INTEGER NOT NULL, card TEXT, acquirer TEXT, hold_days INTEGER, until INTEGER, \
    reply TEXT NOT NULL) STRICT";

/// The index of requests by key.
pub const KEYS: &str =
    "CREATE INDEX requests_by_key ON requests (merchant, terminal, kind, trace, stamp)";

/// The index of requests by merchant and reference. It is no unique key: an open would compare all
/// that have no reference of one merchant with each other. That none is given twice is a law.
pub const REFERENCES: &str = "CREATE INDEX requests_by_reference ON requests (merchant, reference)";

/// Postings.
pub const POSTINGS: &str = "CREATE TABLE postings (merchant TEXT NOT NULL, day INTEGER NOT NULL, \
    number INTEGER NOT NULL, leg INTEGER NOT NULL, amount INTEGER NOT NULL, \
    reference INTEGER NOT NULL, card TEXT NOT NULL, terminal TEXT NOT NULL, \
    trace TEXT NOT NULL) STRICT";

/// The index of postings by day, merchant and number.
pub const POSTING_NUMBERS: &str =
    "CREATE INDEX postings_by_number ON postings (day, merchant, number)";

/// Reconciliations.
pub const RECONCILIATIONS: &str = "CREATE TABLE reconciliations (merchant TEXT NOT NULL, \
    day INTEGER NOT NULL, number INTEGER NOT NULL, in_balance INTEGER NOT NULL) STRICT";

/// The index of reconciliations by day, merchant and number.
pub const RECONCILIATION_NUMBERS: &str =
    "CREATE INDEX reconciliations_by_number ON reconciliations (day, merchant, number)";

/// Running totals of each merchant and day.
pub const RUNNING: &str = "CREATE TABLE running (merchant TEXT, day INTEGER, \
    used INTEGER NOT NULL, credits INTEGER NOT NULL, credit_reversals INTEGER NOT NULL, \
    debits INTEGER NOT NULL, debit_reversals INTEGER NOT NULL, credit_amount INTEGER NOT NULL, \
    credit_reversal_amount INTEGER NOT NULL, debit_amount INTEGER NOT NULL, \
    debit_reversal_amount INTEGER NOT NULL, PRIMARY KEY (merchant, day)) STRICT";

/// Requests, as earlier builds made them: with a unique key.
pub const UNIQUE_REQUESTS: &str = "CREATE TABLE requests (merchant TEXT, terminal TEXT, kind TEXT, \
    trace TEXT, stamp TEXT, essence TEXT NOT NULL, day INTEGER NOT NULL, status INTEGER NOT NULL, \
    admitted INTEGER NOT NULL, reference INTEGER, follows INTEGER, amount INTEGER NOT NULL, \
    leg INTEGER NOT NULL, card TEXT, acquirer TEXT, hold_days INTEGER, until INTEGER, \
    reply TEXT NOT NULL, PRIMARY KEY (merchant, terminal, kind, trace, stamp)) STRICT";

/// Postings, as earlier builds made them.
pub const UNIQUE_POSTINGS: &str = "CREATE TABLE postings (merchant TEXT, day INTEGER, \
    number INTEGER, leg INTEGER NOT NULL, amount INTEGER NOT NULL, reference INTEGER NOT NULL, \
    card TEXT NOT NULL, terminal TEXT NOT NULL, trace TEXT NOT NULL, PRIMARY KEY (day, merchant, \
    number)) STRICT";

/// Reconciliations, as earlier builds made them.
pub const UNIQUE_RECONCILIATIONS: &str = "CREATE TABLE reconciliations (merchant TEXT, \
    day INTEGER, number INTEGER, in_balance INTEGER NOT NULL, \
    PRIMARY KEY (day, merchant, number)) STRICT";
