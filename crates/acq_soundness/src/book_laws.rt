//! What every run of events keeps: laws over the tables, from a new book on, whatever comes.

ghost use Rattle.acq_soundness.specs.Ranges.{RangesStayApart};
ghost use Rattle.acq_soundness.specs.Keys.{KeysStayUnique};
ghost use Rattle.acq_soundness.specs.References.{ReferencesAreConsecutive};
ghost use Rattle.acq_soundness.specs.Replies.{RepliesAreMessages};
ghost use Rattle.acq_soundness.specs.CardData.{SensitiveDataStaysOut};
ghost use Rattle.acq_soundness.specs.Bounds.{NumbersStayBounded};
ghost use Rattle.acq_soundness.specs.Rows.{RowsFitTheirTypes};
ghost use Rattle.acq_soundness.specs.Books.{BooksBegin, BooksGoOn, BooksAreSound};

/// Each range is valid, they are in order of `low`, and no two overlap.
pub fn ranges_stay_apart()
    ensures { RangesStayApart }
{}

/// No two requests have the same key, no two merchants the same name, and no two terminals of a
/// merchant the same name.
pub fn keys_stay_unique()
    ensures { KeysStayUnique }
{}

/// The references of each merchant count up from its first, one more for each admitted request, so
/// that none is given twice. A merchant that isn't enrolled has no requests.
pub fn references_are_consecutive()
    ensures { ReferencesAreConsecutive }
{}

/// Each reply, those that are kept in rows and those that go out, is a message of the reply type of
/// a service, with no elements but those of replies. Its text fits a frame, and is printable.
pub fn replies_are_messages()
    ensures { RepliesAreMessages }
{}

/// No row keeps a track, a PIN block or chip data (elements 35, 45, 52 and 55), and no reply that
/// goes out has them: of a card a row has at most 19 digits, and its essence has the card number
/// and the essential elements alone.
pub fn sensitive_data_stays_out()
    ensures { SensitiveDataStaysOut }
{}

/// Days, references, counts and amounts stay within what the types hold: on each day no more
/// messages of a merchant count than the limit is, no more are posted, and the day's totals fit.
pub fn numbers_stay_bounded()
    ensures { NumbersStayBounded }
{}

/// Each column of each row is what its Rust type holds, so rows may be kept as such and read back.
pub fn rows_fit_their_types()
    ensures { RowsFitTheirTypes }
{}

/// All of these at once, of the tables that any run of events leads to: a book begins with a new
/// one's tables, stays one at each event, and is sound.
pub fn books_are_sound()
    ensures begin { BooksBegin }
    ensures go_on { BooksGoOn }
    ensures sound { BooksAreSound }
{}
