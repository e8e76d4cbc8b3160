//! Control connections whose lines don't wait.

ghost use Rattle.std.specs.Prelude.{◌≡◌, ◌≢◌, ◌==◌, ◌+◌, ◌++◌, ℕ, List, [], false, length, not};
ghost use Rattle.std.specs.Prelude.{◌||◌, None, Ok, drop, take, true};
ghost use Rattle.acq_front.specs.Faults.{IfStore, TellsStore, UnlessRefused};
ghost use Rattle.acq_front.specs.Faults.{failed_reads, failed_writes};
ghost use Rattle.acq_front.specs.Stops.{left_of};
ghost use Rattle.acq_control.specs.Lines.{IsInLine};
ghost use Rattle.acq_control.specs.Held.{HoldsMore, front_of, nothing};
ghost use Rattle.acq_control.specs.Exchanges.{EndsWith, Goes, IfRefused, Moves, line_of, passed};
ghost use Rattle.acq_control.specs.Exchanges.{IsSilent, tells_end};
ghost use Rattle.acq_control.specs.Exchanges.{held_of, taken_of, unmade_of, unsent_of};
ghost use Rattle.acq_control.specs.Ends.{RefusesLine};
ghost use Rattle.acq_control.specs.Unmade.{is_said};
ghost use Rattle.acq_control.specs.declared.control_round.ControlRound.TheVariants.{Took};
ghost use Rattle.acq_control.specs.declared.wish.Wish.{Wish};

use crate::control_conversation::ControlConversation;
use crate::control_round::ControlRound;
use crate::control_turn::ControlTurn;
use acq_book::Book;
use acq_front::{Clock, FrontFault, Line};
use acq_host::Host;
use acq_status::Serving;
use std::alloc::Global;

/// The most bytes that are read at once.
const PIECE: usize = 4096;

/// A control connection: a conversation over a line that doesn't wait. It takes memory for one line
/// and what is said to it.
#[derive(Drop)]
pub struct ControlExchange<L> {
    line: L,
    conversation: ControlConversation,
}

impl<L: Line> ControlExchange<L> {
    /// A connection from its first byte on.
    pub fn new(alloc: Global, line: L) -> ControlExchange<L>
        ensures line { line_of result ≡ line }
        ensures held { held_of result ≡ nothing }
        ensures unsent { unsent_of result ≡ [] }
        ensures unmade { unmade_of result ≡ None }
        ensures taken { taken_of result ≡ 0 }
    {
        ControlExchange {
            line,
            conversation: ControlConversation::new(alloc),
        }
    }

    /// Its line.
    pub fn line(&self) -> &L
        ensures { result.now ≡ line_of self.now }
    {
        &self.line
    }

    /// What it keeps of the line that is taken next, from its beginning on: nothing where that was
    /// dropped, since the line is too long.
    pub fn front(&self) -> &[u8]
        ensures { result.now ≡ front_of (held_of self.now) }
    {
        self.conversation.front()
    }

    /// What of an answer is made and still to be written.
    pub fn unsent(&self) -> &[u8]
        ensures { result.now ≡ unsent_of self.now }
    {
        self.conversation.unsent()
    }

    /// How many bytes of the answer were written.
    pub fn gone(&self) -> u64 {
        self.conversation.gone_of_all()
    }

    /// Whether something of an answer is still to be written, or to be made.
    pub fn is_answering(&self) -> bool
        ensures { result
            ≡ (not (length (unsent_of self.now) == 0) || not (is_said (unmade_of self.now))) }
    {
        !self.conversation.unsent().is_empty() || !self.conversation.is_said()
    }

    /// One round: writes on what is to be written; or else makes a slice of what is still to be
    /// made; or has the host do what the next line asks; or, where none is whole, reads on. A line
    /// that is too long asks nothing, and is answered as any other bad line is, once it ended.
    pub fn round<B: Book + Drop, C: Clock>(
        &mut self,
        alloc: Global,
        host: &mut Host<B>,
        clock: &mut C,
        serving: Serving,
    ) -> Result<ControlRound, FrontFault>
        ensures goes { B.is_honest host.new → B.is_open host.old → UnlessRefused result
            (Goes (C.may_give clock.old) serving (B.tables host.old) (left_of B.Book host.new)
            (passed L.received L.sent self.old) (passed L.received L.sent self.new) result) }
        // It did something, unless it waits.
        ensures moves { B.is_honest host.new → B.is_open host.old
            → Moves (passed L.received L.sent self.old) (passed L.received L.sent self.new) result }
        // The end is told exactly where the line ended, and with it what was left.
        ensures ends { EndsWith (held_of self.new) (unsent_of self.new) (unmade_of self.new)
            result }
        ensures line_ends { L.has_ended (line_of self.old) ≡ false
            → L.has_ended (line_of self.new) ≡ tells_end result }
        // Where memory or the store refused a call, an event was in hand or none,
        ensures refused { B.is_honest host.new → B.is_open host.old → IfRefused result
            (RefusesLine (B.tables host.old) (left_of B.Book host.new)) }
        // and nothing was said.
        ensures silent { IfRefused result (IsSilent (passed L.received L.sent self.old)
            (passed L.received L.sent self.new)) }
        // A fault of reading or writing is told exactly where a read or a write failed.
        ensures reads { L.read_failures (line_of self.new)
            ≡ L.read_failures (line_of self.old) + failed_reads result }
        ensures writes { L.write_failures (line_of self.new)
            ≡ L.write_failures (line_of self.old) + failed_writes result }
        // The store's fault comes only where a call of it failed, or of a book that doesn't add up;
        // and with any other end none failed.
        ensures store { TellsStore result (B.failures host.old) (B.failures host.new)
            (¬ (B.is_honest host.new × B.is_open host.old)) }
        ensures was_honest { B.is_honest host.new → B.is_honest host.old }
        ensures stays_open { B.is_honest host.new → B.is_open host.old
            → UnlessRefused result (B.is_open host.new) }
        ensures given_later { (m : ℕ) → C.may_give clock.new m → C.may_give clock.old m }
    {
        if !self.conversation.unsent().is_empty() {
            return self.send();
        }
        if self.conversation.is_making() {
            self.conversation.make_slice(alloc, host)?;
            return Ok(ControlRound::Made);
        }
        match self.conversation.turn(alloc, host, clock, serving)? {
            ControlTurn::Took(wish) => Ok(ControlRound::Took(wish)),
            ControlTurn::Prepares => Ok(ControlRound::Made),
            ControlTurn::Waits => self.receive(),
        }
    }

    /// Writes on.
    fn send(&mut self) -> Result<ControlRound, FrontFault>
        requires { unsent_of self.old ≢ [] }
        ensures received { L.received (line_of self.new) ≡ L.received (line_of self.old) }
        ensures held { held_of self.new ≡ held_of self.old }
        ensures unmade { unmade_of self.new ≡ unmade_of self.old }
        ensures taken { taken_of self.new ≡ taken_of self.old }
        ensures sent { (n : ℕ) × (unsent_of self.new ≡ drop n (unsent_of self.old))
            × (L.sent (line_of self.new) ≡ L.sent (line_of self.old)
            ++ take n (unsent_of self.old)) }
        ensures moves { Moves (passed L.received L.sent self.old)
            (passed L.received L.sent self.new) result }
        ensures ends { EndsWith (held_of self.new) (unsent_of self.new) (unmade_of self.new)
            result }
        ensures line_ends { L.has_ended (line_of self.new) ≡ L.has_ended (line_of self.old) }
        ensures no_end { tells_end result ≡ false }
        ensures untaken { (wish : Wish) → result ≢ Ok (Took wish) }
        ensures reads { L.read_failures (line_of self.new)
            ≡ L.read_failures (line_of self.old) + failed_reads result }
        ensures writes { L.write_failures (line_of self.new)
            ≡ L.write_failures (line_of self.old) + failed_writes result }
        ensures store { IfStore result ⊥ }
        ensures unrefused { IfRefused result ⊥ }
    {
        match self.line.write(self.conversation.unsent()) {
            Ok(None) => Ok(ControlRound::Waits),
            Ok(Some(n)) => {
                self.conversation.advance(n);
                Ok(ControlRound::GoesOn)
            }
            Err(_) => Err(FrontFault::Write(self.conversation.gone_of_all())),
        }
    }

    /// Reads on.
    fn receive(&mut self) -> Result<ControlRound, FrontFault>
        requires within { IsInLine (held_of self.old).kept }
        requires written { unsent_of self.old ≡ [] }
        requires made { is_said (unmade_of self.old) ≡ true }
        ensures received { (piece : List ℕ)
            × (L.received (line_of self.new) ≡ L.received (line_of self.old) ++ piece)
            × HoldsMore (held_of self.old) (held_of self.new) piece }
        ensures unsent { unsent_of self.new ≡ unsent_of self.old }
        ensures unmade { unmade_of self.new ≡ unmade_of self.old }
        ensures taken { taken_of self.new ≡ taken_of self.old }
        ensures sent { L.sent (line_of self.new) ≡ L.sent (line_of self.old) }
        ensures moves { Moves (passed L.received L.sent self.old)
            (passed L.received L.sent self.new) result }
        ensures ends { EndsWith (held_of self.new) (unsent_of self.new) (unmade_of self.new)
            result }
        ensures line_ends { L.has_ended (line_of self.old) ≡ false
            → L.has_ended (line_of self.new) ≡ tells_end result }
        ensures untaken { (wish : Wish) → result ≢ Ok (Took wish) }
        ensures reads { L.read_failures (line_of self.new)
            ≡ L.read_failures (line_of self.old) + failed_reads result }
        ensures writes { L.write_failures (line_of self.new)
            ≡ L.write_failures (line_of self.old) + failed_writes result }
        ensures store { IfStore result ⊥ }
        ensures unrefused { IfRefused result ⊥ }
    {
        let mut buffer = [0; PIECE];
        let room = self.conversation.room().min(PIECE);
        match self.line.read(&mut buffer[..room])? {
            None => Ok(ControlRound::Waits),
            Some(0) if self.conversation.is_between_lines() => Ok(ControlRound::Ended),
            Some(0) => Err(FrontFault::Ended),
            Some(n) => {
                self.conversation.feed(&buffer[..n]);
                Ok(ControlRound::GoesOn)
            }
        }
    }
}
