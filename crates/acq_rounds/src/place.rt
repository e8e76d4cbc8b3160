//! A connection and its place.

ghost use Rattle.std.specs.Prelude.{◌≡◌, false, true, IfOk};
ghost use Rattle.acq_core.specs.declared.query.Query.{Query};
ghost use Rattle.acq_message.specs.declared.verdict.Verdict.{Verdict};
ghost use Rattle.acq_rounds.specs.Groups.{answered, is_listening, is_ready, turn_of};
ghost use Rattle.acq_rounds.specs.Moves.{GoesOn};
ghost use Rattle.acq_rounds.specs.Places.{seen};
ghost use Rattle.acq_rounds.specs.Said.{told_by, turn_in};
ghost use Rattle.acq_rounds.specs.declared.stage.Stage.TheVariants.{Listening};

use crate::said::Said;
use crate::stage::Stage;
use crate::talk::Talk;
use crate::turn::Turn;
use acq_book::BookFault;
use acq_core::{Query, Verdict};
use acq_front::{FrontFault, Issuer, Line};
use std::alloc::Global;

/// The most bytes that are read at once.
const PIECE: usize = 4096;

/// A connection: its number, its line, what is said over it, what its next turn waits for, and how
/// it ended, if it did.
#[derive(Drop)]
pub struct Place<L, T> {
    number: u64,
    line: L,
    talk: T,
    stage: Stage,
    ended: Option<Result<(), FrontFault>>,
    /// Whether its line may have something to read, or room to write, as far as it is known.
    is_awake: bool,
}

impl<L: Line, T: Talk> Place<L, T> {
    /// A connection over a line.
    pub fn new(number: u64, line: L, talk: T) -> Place<L, T>
        ensures { seen L.Line T.Talk result ≡ record {
          number = number;
          came = L.received line;
          held = T.held talk;
          went = L.sent line;
          unsent = T.unsent talk;
          stage = Listening;
        } }
    {
        Place {
            number,
            line,
            talk,
            stage: Stage::Listening,
            ended: None,
            is_awake: true,
        }
    }

    pub fn number(&self) -> u64
        ensures { result ≡ (seen L.Line T.Talk self.now).number }
    {
        self.number
    }

    pub fn line(&self) -> &L
        ensures came { L.received result.now ≡ (seen L.Line T.Talk self.now).came }
        ensures went { L.sent result.now ≡ (seen L.Line T.Talk self.now).went }
    {
        &self.line
    }

    pub fn talk(&self) -> &T
        ensures held { T.held result.now ≡ (seen L.Line T.Talk self.now).held }
        ensures unsent { T.unsent result.now ≡ (seen L.Line T.Talk self.now).unsent }
    {
        &self.talk
    }

    /// What its next turn waits for.
    pub fn stage(&self) -> &Stage
        ensures { result.now ≡ (seen L.Line T.Talk self.now).stage }
    {
        &self.stage
    }

    /// How it ended, if it did.
    pub fn ended(&self) -> Option<Result<(), FrontFault>> {
        self.ended
    }

    /// Its line may have something to read now, or room to write.
    pub fn wake(&mut self)
        ensures { seen L.Line T.Talk self.new ≡ seen L.Line T.Talk self.old }
    {
        self.is_awake = true;
    }

    /// Whether its next message is waited for, or is there.
    pub fn is_listening(&self) -> bool
        ensures { result ≡ is_listening (seen L.Line T.Talk self.now).stage }
    {
        match &self.stage {
            Stage::Listening => true,
            _ => false,
        }
    }

    /// Whether its issuer's answer is there, and is to be taken.
    pub fn is_heard(&self) -> bool {
        match &self.stage {
            Stage::Answered(_) => true,
            _ => false,
        }
    }

    /// Whether it has something to do before its line is waited for.
    pub fn is_awake(&self) -> bool
        ensures { result ≡ false → is_ready (seen L.Line T.Talk self.now) ≡ false }
    {
        match &self.stage {
            Stage::Listening => self.is_awake || self.ended.is_some() || self.talk.is_ready(),
            Stage::Asking(_) => self.ended.is_some(),
            Stage::Answered(_) => true,
        }
    }

    /// Whether it has something to do before it reads on. What it holds may be a bad length, which
    /// is told even where its line ended by then.
    fn is_busy(&self) -> bool {
        match &self.stage {
            Stage::Listening => {
                self.talk.is_ready()
                    || !self.talk.unsent().is_empty()
                    || self.talk.fault().is_some()
            }
            _ => true,
        }
    }

    /// Reads what came, where it has nothing else to do.
    pub fn read(&mut self)
        ensures { GoesOn (seen L.Line T.Talk self.old) (seen L.Line T.Talk self.new) }
    {
        if !self.is_awake || self.ended.is_some() || self.is_busy() {
            return;
        }
        let mut buffer = [0; PIECE];
        let room = self.talk.room().min(PIECE);
        match self.line.read(&mut buffer[..room]) {
            Ok(None) => self.is_awake = false,
            Ok(Some(0)) if self.talk.held().is_empty() => self.ended = Some(Ok(())),
            Ok(Some(0)) => self.ended = Some(Err(FrontFault::Ended)),
            Ok(Some(n)) => self.talk.feed(&buffer[..n]),
            Err(_) => self.ended = Some(Err(FrontFault::Read)),
        }
    }

    /// Writes what can go.
    pub fn write(&mut self)
        ensures { GoesOn (seen L.Line T.Talk self.old) (seen L.Line T.Talk self.new) }
    {
        if !self.is_awake || self.ended.is_some() || self.talk.unsent().is_empty() {
            return;
        }
        match self.line.write(self.talk.unsent()) {
            Ok(None) => self.is_awake = false,
            Ok(Some(n)) => self.talk.advance(n),
            Err(_) => self.ended = Some(Err(FrontFault::Write(self.talk.gone() as u64))),
        }
    }

    /// Whether the issuer's answer that it waits for is there.
    pub fn is_answered<I: Issuer>(&self, issuer: &mut I) -> bool
        ensures later { (q : Query) (v : Verdict) → I.may_say issuer.new q v
            → I.may_say issuer.old q v }
    {
        match &self.stage {
            Stage::Asking(query) => issuer.has_answer(query),
            _ => false,
        }
    }

    /// The issuer's answer that it waits for is there, and is to be taken next.
    pub fn hear(&mut self)
        ensures { GoesOn (seen L.Line T.Talk self.old) (seen L.Line T.Talk self.new) }
    {
        // What came meanwhile is read behind the answer.
        self.is_awake = true;
        self.stage = match std::mem::replace(&mut self.stage, Stage::Listening) {
            Stage::Asking(query) => Stage::Answered(query),
            other => other,
        };
    }

    /// Whether its next turn is ready.
    pub fn is_ready(&self) -> bool
        ensures { result ≡ is_ready (seen L.Line T.Talk self.now) }
    {
        match &self.stage {
            Stage::Listening => self.talk.is_ready(),
            Stage::Asking(_) => false,
            Stage::Answered(_) => self.talk.unsent().is_empty(),
        }
    }

    /// The turn that is ready: a message is copied.
    pub fn turn(&self, alloc: Global) -> Result<Turn<'_>, BookFault>
        requires { is_ready (seen L.Line T.Talk self.now) ≡ true }
        ensures { IfOk result (λ turn. turn_in turn ≡ turn_of (seen L.Line T.Talk self.now)) }
    {
        match &self.stage {
            Stage::Listening => match self.talk.message(alloc) {
                Ok(Some(message)) => Ok(Turn::Message(message)),
                _ => Err(BookFault::Memory),
            },
            Stage::Asking(query) | Stage::Answered(query) => Ok(Turn::Answer(query)),
        }
    }

    /// It ends so, unless it ended already.
    pub fn end(&mut self, ended: Result<(), FrontFault>)
        ensures { seen L.Line T.Talk self.new ≡ seen L.Line T.Talk self.old }
    {
        if self.ended.is_none() {
            self.ended = Some(ended);
        }
    }

    /// Its turn was taken, and this is what the host said.
    pub fn hold(&mut self, said: Said)
        requires { is_ready (seen L.Line T.Talk self.old) ≡ true }
        ensures { seen L.Line T.Talk self.new
            ≡ answered (seen L.Line T.Talk self.old) (told_by said) }
    {
        let is_listening = self.is_listening();
        match said {
            Said::Asked(query) => {
                if is_listening {
                    self.talk.defer();
                }
                self.stage = Stage::Asking(query);
            }
            Said::Settled(last) => {
                if is_listening {
                    if let Err(fault) = self.talk.hold(&last.output, last.reason) {
                        self.ended = Some(Err(fault));
                    }
                } else {
                    self.talk.reply(&last.output, last.reason);
                }
                self.stage = Stage::Listening;
            }
        }
    }

    /// Ends it where what it holds can become no message, once its replies are out.
    pub fn check(&mut self)
        ensures { seen L.Line T.Talk self.new ≡ seen L.Line T.Talk self.old }
    {
        if self.is_listening() && self.talk.unsent().is_empty() {
            if let Some(fault) = self.talk.fault() {
                self.end(Err(fault));
            }
        }
    }
}
