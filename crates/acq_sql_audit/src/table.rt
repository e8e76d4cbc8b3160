//! The tables that are compared.

ghost use Rattle.std.specs.Prelude.{◌≡◌, map};

/// A table of a book.
#[derive(Clone, Copy, Debug, PartialEq, Eq)]
pub enum Table {
    Book,
    Merchants,
    Terminals,
    Ranges,
    Requests,
    Postings,
    Reconciliations,
    Running,
}

/// All of them, in the order in which they are compared.
pub(crate) const TABLES: &[Table] = &[
    Table::Book,
    Table::Merchants,
    Table::Terminals,
    Table::Ranges,
    Table::Requests,
    Table::Postings,
    Table::Reconciliations,
    Table::Running,
];

const BOOK: &str = "SELECT rowid, version, max_a_day, day FROM book ORDER BY rowid";

const MERCHANTS: &str = "SELECT rowid, merchant, currency, first FROM merchants ORDER BY rowid";

const TERMINALS: &str = "SELECT rowid, merchant, terminal FROM terminals ORDER BY rowid";

const RANGES: &str = "SELECT low, high, issuer, hold_days FROM ranges ORDER BY rowid";

const REQUESTS: &str = "SELECT rowid, merchant, terminal, kind, trace, stamp, essence, day, \
    status, admitted, reference, follows, amount, leg, card, acquirer, hold_days, until, reply \
    FROM requests ORDER BY rowid";

const POSTINGS: &str = "SELECT rowid, merchant, day, number, leg, amount, reference, card, \
    terminal, trace FROM postings ORDER BY rowid";

const RECONCILIATIONS: &str = "SELECT rowid, merchant, day, number, in_balance \
    FROM reconciliations ORDER BY rowid";

const RUNNING: &str = "SELECT rowid, merchant, day, used, credits, credit_reversals, debits, \
    debit_reversals, credit_amount, credit_reversal_amount, debit_amount, debit_reversal_amount \
    FROM running ORDER BY rowid";

impl Table {
    ghost use Rattle.acq_sql_audit.specs.Compared.{columns_of, name_of, select_of};

    /// Its name in the file.
    pub fn name(self) -> &'static str
        ensures { result.now ≡ name_of self }
    {
        match self {
            Table::Book => "book",
            Table::Merchants => "merchants",
            Table::Terminals => "terminals",
            Table::Ranges => "ranges",
            Table::Requests => "requests",
            Table::Postings => "postings",
            Table::Reconciliations => "reconciliations",
            Table::Running => "running",
        }
    }

    /// The names of the columns that are compared, in order. The first is the row's number.
    pub fn columns(self) -> &'static [&'static str]
        ensures { map (λ name. name.now) result.now ≡ columns_of self }
    {
        match self {
            Table::Book => &["rowid", "version", "max_a_day", "day"],
            Table::Merchants => &["rowid", "merchant", "currency", "first"],
            Table::Terminals => &["rowid", "merchant", "terminal"],
            Table::Ranges => &["low", "high", "issuer", "hold_days"],
            Table::Requests => &[
                "rowid",
                "merchant",
                "terminal",
                "kind",
                "trace",
                "stamp",
                "essence",
                "day",
                "status",
                "admitted",
                "reference",
                "follows",
                "amount",
                "leg",
                "card",
                "acquirer",
                "hold_days",
                "until",
                "reply",
            ],
            Table::Postings => &[
                "rowid",
                "merchant",
                "day",
                "number",
                "leg",
                "amount",
                "reference",
                "card",
                "terminal",
                "trace",
            ],
            Table::Reconciliations => &["rowid", "merchant", "day", "number", "in_balance"],
            Table::Running => &[
                "rowid",
                "merchant",
                "day",
                "used",
                "credits",
                "credit_reversals",
                "debits",
                "debit_reversals",
                "credit_amount",
                "credit_reversal_amount",
                "debit_amount",
                "debit_reversal_amount",
            ],
        }
    }

    /// The query of these columns of its rows.
    pub(crate) fn select(self) -> &'static str
        ensures { result.now ≡ select_of self }
    {
        match self {
            Table::Book => BOOK,
            Table::Merchants => MERCHANTS,
            Table::Terminals => TERMINALS,
            Table::Ranges => RANGES,
            Table::Requests => REQUESTS,
            Table::Postings => POSTINGS,
            Table::Reconciliations => RECONCILIATIONS,
            Table::Running => RUNNING,
        }
    }
}
