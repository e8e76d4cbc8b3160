//! One end of a connection, without its reads and writes.

ghost use Rattle.std.specs.Prelude.{◌≡◌, ◌+◌, ◌≤◌, ◌<◌, ◌++◌, [], length, drop};
ghost use Rattle.std.specs.Prelude.{IfErr, IfNone, IfOk, IfSome, None, Ok, true};
ghost use Rattle.acq_link.specs.Deframing.{longest_frame};
ghost use Rattle.acq_link.specs.FirstMessage.{begins_with_message, behind_message, first_message};
ghost use Rattle.acq_link.specs.FramesAt.{MayBecomeFrame};
ghost use Rattle.acq_front.specs.Ends.{held_of, unsent_of, hand_of, gone_of, unanswered_of};
ghost use Rattle.acq_front.specs.Faults.{IfStore};
ghost use Rattle.acq_front.specs.Outgoing.{frame_said};
ghost use Rattle.acq_front.specs.Ready.{IsOfStream, ends_after, is_ready};
ghost use Rattle.acq_front.specs.Turns.{ReplyFits};

use crate::FrontFault;
use crate::outgoing::Outgoing;
use crate::unanswered::{Unanswered, kind_of};
use acq_core::Output;
use acq_link::{Deframer, Front};
use acq_reasons::Reason;
use std::alloc::Global;

/// One end of a connection: what came and belongs to no message yet, and what of a reply is still
/// to be written. It takes memory for one message at a time.
#[derive(Drop)]
pub struct Conversation {
    input: Deframer,
    output: Outgoing,
    /// The type of the message that was taken last.
    kind: [u8; 4],
    /// The message that was taken last, if it gets no reply.
    unanswered: Option<Unanswered>,
    /// Why its reply has another code than 00, if it has.
    reason: Option<Reason>,
}

impl Conversation {
    /// Nothing came yet, and nothing is to be written.
    pub fn new() -> Conversation
        ensures held { held_of result ≡ [] }
        ensures unsent { unsent_of result ≡ [] }
        ensures gone { gone_of result ≡ 0 }
    {
        Conversation {
            input: Deframer::new(),
            output: Outgoing::new(),
            kind: [0; 4],
            unanswered: None,
            reason: None,
        }
    }

    /// How many bytes it has room for: some, where what it holds may become a frame.
    pub fn room(&self) -> usize
        ensures room { result + length (held_of self.now) ≡ longest_frame }
        ensures some { MayBecomeFrame (held_of self.now) → 0 < result }
    {
        self.input.room()
    }

    /// Takes in the next piece of what comes.
    pub fn feed(&mut self, piece: &[u8])
        requires { length (held_of self.old) + length piece.now ≤ longest_frame }
        ensures held { held_of self.new ≡ held_of self.old ++ piece.now }
        ensures hand { hand_of self.new ≡ hand_of self.old }
        ensures gone { gone_of self.new ≡ gone_of self.old }
    {
        self.input.feed(piece);
    }

    /// What came and belongs to no message yet.
    pub fn held(&self) -> &[u8]
        ensures { result.now ≡ held_of self.now }
    {
        self.input.as_slice()
    }

    /// What is to be written before the next message is taken.
    pub fn unsent(&self) -> &[u8]
        ensures { result.now ≡ unsent_of self.now }
    {
        self.output.as_slice()
    }

    /// How many bytes of the reply were written.
    pub fn gone(&self) -> usize
        ensures { result ≡ gone_of self.now }
    {
        self.output.gone()
    }

    /// The message that was taken last, if it gets no reply.
    pub fn unanswered(&self) -> Option<Unanswered>
        ensures { result ≡ unanswered_of self.now }
    {
        self.unanswered
    }

    /// Why the reply to the message that was taken last has another code than 00, for logs.
    pub fn reason(&self) -> Option<Reason> {
        self.reason
    }

    /// So many bytes of it were written.
    pub fn advance(&mut self, n: usize)
        requires { n ≤ length (unsent_of self.old) }
        ensures held { held_of self.new ≡ held_of self.old }
        ensures unsent { unsent_of self.new ≡ drop n (unsent_of self.old) }
        ensures hand { hand_of self.new ≡ hand_of self.old }
        ensures gone { gone_of self.new ≡ gone_of self.old + n }
    {
        self.output.advance(n);
    }

    /// Whether a message is whole, and nothing is to be written before it is taken.
    pub fn is_ready(&self) -> bool
        ensures { result ≡ is_ready (held_of self.now) (unsent_of self.now) }
    {
        self.output.as_slice().is_empty() && self.input.has_message()
    }

    /// Why what it holds can become no message, if it can't: its length is bad.
    pub fn fault(&self) -> Option<FrontFault>
        ensures { IfSome result (IsOfStream (held_of self.now)) }
    {
        match self.input.front() {
            Front::BadLength => Some(FrontFault::BadLength),
            _ => None,
        }
    }

    /// The next message, copied, if one is whole: it is still to be taken. A bad length is told.
    pub fn message(&self, alloc: Global) -> Result<Option<Vec<u8>>, FrontFault>
        ensures some { IfOk result (λ o. IfSome o (λ message.
            (begins_with_message (held_of self.now) ≡ true)
            × (message.items ≡ first_message (held_of self.now)))) }
        ensures none { IfOk result (λ o. IfNone o (MayBecomeFrame (held_of self.now))) }
        ensures fault { IfErr result (IsOfStream (held_of self.now)) }
    {
        let message = self.input.message(alloc)?;
        Ok(message)
    }

    /// The next message was taken, and the host said this to it last; the reply is then to be
    /// written. One that doesn't read ends the connection. A reply that fits no frame can only come
    /// of rows that no host wrote.
    pub fn hold(&mut self, said: &Output, reason: Option<Reason>) -> Result<(), FrontFault>
        requires { is_ready (held_of self.old) (unsent_of self.old) ≡ true }
        ensures held { held_of self.new ≡ behind_message (held_of self.old) }
        ensures unsent { ReplyFits said.now → unsent_of self.new ≡ frame_said said.now }
        ensures ends { ReplyFits said.now → result ≡ ends_after said.now }
        // Of a message that gets no reply, nothing is to be written.
        ensures silent { IfSome (unanswered_of self.new) (λ message. unsent_of self.new ≡ []) }
        ensures gone { gone_of self.new ≡ 0 }
        ensures store { IfStore result (ReplyFits said.now → ⊥) }
    {
        self.kind = self.kind_in_front();
        self.input.discard();
        let held = self.reply(said, reason);
        if let Output::Undecodable(fault) = said {
            return Err(FrontFault::Undecodable(*fault));
        }
        held
    }

    /// The next message was taken, and its issuer answers later: nothing is to be written yet.
    pub fn defer(&mut self)
        requires { is_ready (held_of self.old) (unsent_of self.old) ≡ true }
        ensures held { held_of self.new ≡ behind_message (held_of self.old) }
        ensures unsent { unsent_of self.new ≡ [] }
        ensures none { unanswered_of self.new ≡ None }
        ensures gone { gone_of self.new ≡ 0 }
    {
        self.kind = self.kind_in_front();
        self.input.discard();
        self.output.clear();
        self.unanswered = None;
        self.reason = None;
    }

    /// The host said this to the message that was taken last, or to its issuer's answer; the reply
    /// is then to be written.
    pub fn reply(&mut self, said: &Output, reason: Option<Reason>) -> Result<(), FrontFault>
        ensures held { held_of self.new ≡ held_of self.old }
        ensures unsent { ReplyFits said.now → unsent_of self.new ≡ frame_said said.now }
        ensures well { ReplyFits said.now → result ≡ Ok tt }
        // Of a message that gets no reply, nothing is to be written.
        ensures silent { IfSome (unanswered_of self.new) (λ message. unsent_of self.new ≡ []) }
        ensures gone { gone_of self.new ≡ 0 }
        ensures store { IfStore result (ReplyFits said.now → ⊥) }
    {
        self.output.clear();
        self.unanswered = Unanswered::of(self.kind, said);
        self.reason = reason;
        self.output.hold(said)
    }

    /// The type of the next message, if one is whole.
    fn kind_in_front(&self) -> [u8; 4] {
        match self.input.front() {
            Front::Frame { message, .. } => kind_of(message),
            _ => [0; 4],
        }
    }
}
