//! What the host said to a turn.

ghost use Rattle.std.specs.Prelude.{◌≡◌, None};
ghost use Rattle.acq_front.specs.Turns.{ReplyFits};
ghost use Rattle.acq_rounds.specs.Acts.{query_in};

use acq_core::{Output, Query};
use acq_reasons::Reason;

/// What the host said to a turn.
#[derive(Drop)]
pub enum Said {
    /// Its last word.
    Settled(Settled),
    /// A query to an issuer that answers later.
    Asked(Query),
}

/// The host's last word to a turn: a reply that fits a frame, or what gets none; and for logs why a
/// reply has another code than 00, if it has.
#[derive(Drop)]
pub struct Settled {
    pub output: Output,
    pub reason: Option<Reason>,
    ghost fits: { ReplyFits output },
    ghost asks_nothing: { query_in output ≡ None },
}
