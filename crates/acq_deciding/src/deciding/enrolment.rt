//! Enrolments of merchants and terminals.

ghost use Rattle.std.specs.Prelude.{◌≡◌, true};
ghost use Rattle.acq_core.specs.Decision.{decision_of_enrolment, decision_of_terminal};
ghost use Rattle.acq_core.specs.Known.{Known};
ghost use Rattle.acq_deciding.specs.Meaning.{meaning_of, is_feasible};

use crate::decision::Decision;
use acq_core::{Merchant, Output, Terminal};

/// What is to be done about a merchant to enrol.
pub(super) fn decision_of_enrolment(
    merchant: Merchant,
    enrolled: Option<Merchant>,
) -> Decision<'static>
    ensures value { meaning_of result ≡ decision_of_enrolment merchant enrolled }
    ensures feasible { (k : Known) → is_feasible k (meaning_of result) ≡ true }
{
    match enrolled {
        None => Decision::Enrols(merchant),
        Some(_) => Decision::Reports(Output::AlreadyEnrolled),
    }
}

/// What is to be done about a terminal to add. One that is there already is done.
pub(super) fn decision_of_terminal(
    terminal: Terminal,
    is_there: bool,
    merchant: Option<Merchant>,
) -> Decision<'static>
    ensures value { meaning_of result ≡ decision_of_terminal terminal is_there merchant }
    ensures feasible { (k : Known) → is_feasible k (meaning_of result) ≡ true }
{
    match merchant {
        None => Decision::Reports(Output::NoSuchMerchant),
        Some(_) if is_there => Decision::Reports(Output::Done),
        Some(_) => Decision::AddsTerminal(terminal),
    }
}
