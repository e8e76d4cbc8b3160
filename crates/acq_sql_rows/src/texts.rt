//! The texts of the writes, and of what begins and ends a transaction. `specs/Queries.antt` says
//! what the writes mean.

/// A transaction begins.
pub const BEGIN: &str = "BEGIN";

/// It is committed.
pub const COMMIT: &str = "COMMIT";

/// It is rolled back.
pub const ROLLBACK: &str = "ROLLBACK";

/// The row of a new book.
pub const ADD_BOOK: &str = "INSERT INTO book VALUES (?1, ?2, ?3)";

/// Another business day.
pub const SET_DAY: &str = "UPDATE book SET day = ?1";

/// A merchant.
pub const ADD_MERCHANT: &str = "INSERT INTO merchants VALUES (?1, ?2, ?3)";

/// A terminal.
pub const ADD_TERMINAL: &str = "INSERT INTO terminals VALUES (?1, ?2)";

/// A range.
pub const ADD_RANGE: &str = "INSERT INTO ranges VALUES (?1, ?2, ?3, ?4)";

/// A range with these ends is taken out.
pub const DROP_RANGE: &str = "DELETE FROM ranges WHERE low = ?1 AND high = ?2";

/// Ranges of six digits become those of eight, with -1 - low in place of each low: each is below 0
/// then, and none was before, so no two rows have the same low on the way.
pub const WIDEN_RANGES: &str = "UPDATE ranges SET low = -1 - low * 100, high = high * 100 + 99";

/// Each low is put back.
pub const TURN_RANGES: &str = "UPDATE ranges SET low = -1 - low";

/// The book is one of the version in force.
pub const SET_VERSION: &str = "UPDATE book SET version = 2";

/// A request, its columns in order.
pub const ADD_REQUEST: &str = "INSERT INTO requests VALUES (?1, ?2, ?3, ?4, ?5, ?6, ?7, ?8, ?9, \
    ?10, ?11, ?12, ?13, ?14, ?15, ?16, ?17, ?18)";

/// What an answer makes of the request with a key.
pub const ANSWER: &str = "UPDATE requests SET status = ?6, until = ?7, reply = ?8 \
    WHERE merchant = ?1 AND terminal = ?2 AND kind = ?3 AND trace = ?4 AND stamp = ?5";

/// What a completion or a reversal makes of the request with a key.
pub const FOLLOW: &str = "UPDATE requests SET status = ?6, amount = ?7 \
    WHERE merchant = ?1 AND terminal = ?2 AND kind = ?3 AND trace = ?4 AND stamp = ?5";

/// A posting, with its number.
pub const ADD_POSTING: &str = "INSERT INTO postings VALUES (?1, ?2, ?3, ?4, ?5, ?6, ?7, ?8, ?9)";

/// A reconciliation, with its number.
pub const ADD_RECONCILIATION: &str = "INSERT INTO reconciliations VALUES (?1, ?2, ?3, ?4)";

/// What is added to a merchant's running totals of a day.
pub const RAISE: &str = "INSERT INTO running VALUES (?1, ?2, ?3, ?4, ?5, ?6, ?7, ?8, ?9, ?10, \
    ?11) ON CONFLICT (merchant, day) DO UPDATE SET used = used + ?3, credits = credits + ?4, \
    credit_reversals = credit_reversals + ?5, debits = debits + ?6, \
    debit_reversals = debit_reversals + ?7, credit_amount = credit_amount + ?8, \
    credit_reversal_amount = credit_reversal_amount + ?9, debit_amount = debit_amount + ?10, \
    debit_reversal_amount = debit_reversal_amount + ?11";
