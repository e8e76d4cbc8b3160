//! The stand-in itself.

ghost use Rattle.std.specs.Prelude.{◌≡◌, ◌+◌, ◌*◌, ◌++◌, ℕ, List, [], find};
ghost use Rattle.std.specs.Prelude.{Ok, Err, IsErrOf, MatchResult, OnOk};
ghost use Rattle.std.specs.Duration.{as_nanos};
ghost use Rattle.std.specs.Option.{option_copied};
ghost use Rattle.acq_link.specs.Moves.{TakesAll};
ghost use Rattle.acq_out.specs.RecordFaults.{failed_reads};
ghost use Rattle.acq_out.specs.RecordReads.{ReadsValues};
ghost use Rattle.acq_out.specs.declared.records.record_fault.RecordFault.TheVariants.{BadRecord};
ghost use Rattle.acq_stand_in.specs.Answers.{answer_of_fields, is_for, takes_for, verdict_for};

use crate::answer_form::AnswerForm;
use crate::card_answer::CardAnswer;
use acq_core::{Query, Verdict};
use acq_front::Issuer;
use acq_link::Source;
use acq_out::records::{RecordFault, read_records};
use card_no::CardNumber;
use std::alloc::Global;
use std::marker::Model;
use std::time::Duration;

/// The stand-in for issuers: it answers each query by the first record of its file that names the
/// card, and gives no answer where none does, which takes no time.
#[derive(Drop)]
pub struct StandIn {
    answers: Vec<CardAnswer>,
}

impl Model for StandIn {
    ghost use Rattle.std.specs.Prelude.{List};
    ghost use Rattle.acq_stand_in.specs.declared.card_answer.CardAnswer.{CardAnswer};

    ghost Value = { List CardAnswer };

    ghost view = { λ s. s.answers.items };
}

impl StandIn {
    /// Reads the whole file: CSV with no header line, a record `card,verdict,text` for each card,
    /// or `card,verdict,text,milliseconds` where the answer takes its time (own profile;
    /// `specs/Answers.antt`). `BadRecord` names the first record out of its form, counted from 1.
    pub fn read<S: Source>(alloc: Global, file: &mut S) -> Result<StandIn, RecordFault>
        // What was read, and what it gave.
        ensures read { (bytes : List ℕ)
            × (S.received file.new ≡ S.received file.old ++ bytes)
            × MatchResult result
            (λ answers. ReadsValues answer_of_fields bytes (Ok answers))
            (λ fault. ReadsValues answer_of_fields bytes (Err fault)) }
        // Where it is given, or a record is bad, the whole file was read.
        ensures whole { OnOk result
            (TakesAll (S.remaining file.old) (S.received file.old) (S.received file.new)) }
        ensures whole_at_bad_record { (n : ℕ) → IsErrOf result (BadRecord n)
            → TakesAll (S.remaining file.old) (S.received file.old) (S.received file.new) }
        // A fault of reading comes just where a read failed.
        ensures failures { S.failures file.new ≡ S.failures file.old + failed_reads result }
    {
        let answers = read_records(alloc, &AnswerForm, file)?;
        Ok(StandIn { answers })
    }

    /// A stand-in that answers nothing, as by an empty file.
    pub fn silent(alloc: Global) -> StandIn
        ensures { result ≡ [] }
    {
        StandIn {
            answers: Vec::new(alloc),
        }
    }

    /// The verdict for a card. It goes over the answers, and takes no memory.
    pub fn verdict_for(&self, card: &CardNumber) -> Verdict
        ensures { result ≡ verdict_for self.now card.now }
    {
        self.verdict_on(card.digits())
    }

    /// The verdict for the card of these digits.
    pub(crate) fn verdict_on(&self, card: &[u8]) -> Verdict
        ensures { result ≡ verdict_for self.now card.now }
    {
        match self.first_for(card) {
            Some(answer) => answer.verdict,
            None => Verdict::NoAnswer,
        }
    }

    /// How long the answer for a card takes, which is no time where there is none.
    pub fn takes_for(&self, card: &CardNumber) -> Duration
        ensures { as_nanos result ≡ takes_for self.now card.now * 1_000_000 }
    {
        match self.first_for(card.digits()) {
            Some(answer) => Duration::from_millis(u64::from(answer.takes)),
            None => Duration::ZERO,
        }
    }

    /// The first answer for a card, if there is one.
    fn first_for(&self, card: &[u8]) -> Option<&CardAnswer>
        ensures { option_copied result ≡ find (is_for card.now) self.now }
    {
        self.answers.iter().find(|answer| answer.is_for(card))
    }
}

impl Issuer for StandIn {
    ghost use Rattle.acq_stand_in.specs.Answers.{says_by};

    ghost may_say = { says_by };

    fn answer(&mut self, query: &Query) -> Verdict {
        self.verdict_for(&query.card)
    }

    fn takes(&self, query: &Query) -> Duration
        ensures { as_nanos result ≡ takes_for self.now query.now.card * 1_000_000 }
    {
        self.takes_for(&query.card)
    }

    /// Whether it is there at once: when a later one is, whoever asks counts.
    fn has_answer(&mut self, query: &Query) -> bool {
        self.takes_for(&query.card).is_zero()
    }
}
