//! What is said over a line.

ghost use Rattle.std.specs.Prelude.{◌≡◌, ◌≤◌, ◌+◌, ◌++◌, ℕ, List, [], length, drop, true};
ghost use Rattle.std.specs.Prelude.{IfNone, IfOk, IfSome};
ghost use Rattle.acq_link.specs.FirstMessage.{begins_with_message, behind_message, first_message};
ghost use Rattle.acq_link.specs.FramesAt.{MayBecomeFrame};
ghost use Rattle.acq_front.specs.Ends.{held_of, unsent_of};
ghost use Rattle.acq_front.specs.Outgoing.{frame_said};
ghost use Rattle.acq_front.specs.Ready.{IsOfStream, ends_after, is_ready};
ghost use Rattle.acq_front.specs.Turns.{ReplyFits};

use acq_core::Output;
use acq_front::{Conversation, FrontFault};
use acq_reasons::Reason;
use std::alloc::Global;

/// What is said over a line, without its reads and writes, one message at a time: a message is
/// looked at, taken elsewhere, and what was said to it is held until it is written.
pub trait Talk {
    // What came and belongs to no message that was taken.
    ghost held: { Self → List ℕ };

    // What of a reply is still to be written.
    ghost unsent: { Self → List ℕ };

    // The most bytes that it holds.
    ghost most: { ℕ };

    /// How many bytes it has room for.
    fn room(&self) -> usize
        ensures { result + length (held self.now) ≡ most };

    /// Takes in the next piece of what comes.
    fn feed(&mut self, piece: &[u8])
        requires { length (held self.old) + length piece.now ≤ most }
        ensures held { held self.new ≡ held self.old ++ piece.now }
        ensures unsent { unsent self.new ≡ unsent self.old };

    /// What came and belongs to no message that was taken.
    fn held(&self) -> &[u8]
        ensures { result.now ≡ held self.now };

    /// What is to be written before the next message is taken.
    fn unsent(&self) -> &[u8]
        ensures { result.now ≡ unsent self.now };

    /// How many bytes of the reply in hand were written.
    fn gone(&self) -> usize;

    /// So many bytes more were written.
    fn advance(&mut self, n: usize)
        requires { n ≤ length (unsent self.old) }
        ensures held { held self.new ≡ held self.old }
        ensures unsent { unsent self.new ≡ drop n (unsent self.old) };

    /// Whether a message is whole, and nothing is to be written before it is taken.
    fn is_ready(&self) -> bool
        ensures { result ≡ is_ready (held self.now) (unsent self.now) };

    /// Why what is held in front can become no message, if it can't.
    fn fault(&self) -> Option<FrontFault>
        ensures { IfSome result (IsOfStream (held self.now)) };

    /// The next message, copied, if one is whole: it is still to be taken.
    fn message(&self, alloc: Global) -> Result<Option<Vec<u8>>, FrontFault>
        ensures some { IfOk result (λ o. IfSome o (λ message.
            (begins_with_message (held self.now) ≡ true)
            × (message.items ≡ first_message (held self.now)))) }
        ensures none { IfOk result (λ o. IfNone o (MayBecomeFrame (held self.now))) };

    /// The next message was taken, and the host said this to it last; the reply is then to be
    /// written. An `Err` says that the connection ends with it.
    fn hold(&mut self, said: &Output, reason: Option<Reason>) -> Result<(), FrontFault>
        requires ready { is_ready (held self.old) (unsent self.old) ≡ true }
        requires fits { ReplyFits said.now }
        ensures held { held self.new ≡ behind_message (held self.old) }
        ensures unsent { unsent self.new ≡ frame_said said.now }
        ensures ends { result ≡ ends_after said.now };

    /// The next message was taken, and its issuer answers later: nothing is to be written yet.
    fn defer(&mut self)
        requires ready { is_ready (held self.old) (unsent self.old) ≡ true }
        ensures held { held self.new ≡ behind_message (held self.old) }
        ensures unsent { unsent self.new ≡ [] };

    /// The issuer's answer to what the last message asked was taken, and the host said this to it;
    /// the reply is then to be written.
    fn reply(&mut self, said: &Output, reason: Option<Reason>)
        requires fits { ReplyFits said.now }
        ensures held { held self.new ≡ held self.old }
        ensures unsent { unsent self.new ≡ frame_said said.now };
}

impl Talk for Conversation {
    ghost use Rattle.acq_front.specs.Ends.{held_of, unsent_of};
    ghost use Rattle.acq_link.specs.Deframing.{longest_frame};

    ghost held = { held_of };

    ghost unsent = { unsent_of };

    ghost most = { longest_frame };

    fn room(&self) -> usize {
        self.room()
    }

    fn feed(&mut self, piece: &[u8]) {
        self.feed(piece);
    }

    fn held(&self) -> &[u8] {
        self.held()
    }

    fn unsent(&self) -> &[u8] {
        self.unsent()
    }

    fn gone(&self) -> usize {
        self.gone()
    }

    fn advance(&mut self, n: usize) {
        self.advance(n);
    }

    fn is_ready(&self) -> bool {
        self.is_ready()
    }

    fn fault(&self) -> Option<FrontFault> {
        self.fault()
    }

    fn message(&self, alloc: Global) -> Result<Option<Vec<u8>>, FrontFault> {
        self.message(alloc)
    }

    fn hold(&mut self, said: &Output, reason: Option<Reason>) -> Result<(), FrontFault> {
        self.hold(said, reason)
    }

    fn defer(&mut self) {
        self.defer();
    }

    fn reply(&mut self, said: &Output, reason: Option<Reason>) {
        let _ = self.reply(said, reason);
    }
}
