//! What is said over a terminal's connection, and when.

ghost use Rattle.std.specs.Prelude.{◌≡◌, []};
ghost use Rattle.acq_tcp.specs.Terminals.{held_in, unsent_in};

use crate::connection_name::ConnectionName;
use crate::ending::Ending;
use crate::frame_head::FrameHead;
use crate::round_time::RoundTime;
use crate::standing::Standing;
use crate::time_limits::{TimeLimits, deadline, earlier};
use acq_core::Output;
use acq_front::{Conversation, FrontFault, StreamLine, Unanswered};
use acq_reasons::Reason;
use acq_rounds::{Place, Talk};
use mio::net::TcpStream;
use std::alloc::Global;
use std::cell::Cell;
use std::time::Instant;

/// A terminal's connection in its place.
pub(crate) type TerminalPlace<'r> = Place<StreamLine<TcpStream>, TerminalTalk<'r>>;

/// What is said over a terminal's connection, and when, by the times of rounds.
#[derive(Drop)]
pub(crate) struct TerminalTalk<'r> {
    conversation: Conversation,
    name: ConnectionName,
    time: &'r RoundTime,
    /// When something last happened.
    last_moved: Option<Instant>,
    /// When the last piece came: so did the last byte of each message that is whole.
    came: Option<Instant>,
    /// When the frame in front began.
    began: Option<Instant>,
    /// How the frame begins that spelled no message.
    refused: Option<FrameHead>,
    /// How it stands where another one waits for its place.
    standing: Cell<Standing>,
    /// What ends it, where it ends.
    ending: Cell<Ending>,
    /// The message whose issuer is asked, where it is to be kept for a gateway.
    asking: Cell<Option<Vec<u8>>>,
    keeper: Option<Global>,
}

impl<'r> TerminalTalk<'r> {
    /// Over a connection of this name that came in the round that is under way. Where there is a
    /// keeper's memory, the message whose issuer is asked is kept for a gateway.
    pub(crate) fn new(
        name: ConnectionName,
        time: &'r RoundTime,
        keeper: Option<Global>,
    ) -> TerminalTalk<'r>
        ensures held { held_in result ≡ [] }
        ensures unsent { unsent_in result ≡ [] }
    {
        TerminalTalk {
            conversation: Conversation::new(),
            name,
            time,
            last_moved: time.get(),
            came: None,
            began: None,
            refused: None,
            standing: Cell::new(Standing::new(time.get())),
            ending: Cell::new(Ending::Own),
            asking: Cell::new(None),
            keeper,
        }
    }

    /// The message whose issuer is asked, where it was kept; it isn't any more.
    pub(crate) fn take_asking(&self) -> Option<Vec<u8>> {
        self.asking.take()
    }

    /// Keeps the message in front, if it is to be kept and there is memory.
    fn keep_asking(&mut self)
        ensures { self.new.conversation ≡ self.old.conversation }
    {
        let Some(alloc) = self.keeper else {
            return;
        };
        if let Ok(message) = self.conversation.message(alloc) {
            self.asking.set(message);
        }
    }

    /// What the connection is called.
    pub(crate) fn name(&self) -> ConnectionName {
        self.name
    }

    /// How it stands where another one waits for its place.
    pub(crate) fn standing(&self) -> Standing {
        self.standing.get()
    }

    /// A message of an enrolled terminal is answered over it now.
    pub(crate) fn sold(&self, now: Option<Instant>) {
        self.standing.set(Standing::sold(now));
    }

    /// When the last piece came.
    pub(crate) fn came(&self) -> Option<Instant> {
        self.came
    }

    /// The message that was taken last, if it gets no reply.
    pub(crate) fn unanswered(&self) -> Option<Unanswered> {
        self.conversation.unanswered()
    }

    /// Why the reply to the message that was taken last has another code than 00, if it has.
    pub(crate) fn reason(&self) -> Option<Reason> {
        self.conversation.reason()
    }

    /// How the frame begins that is in front, or that spelled no message.
    pub(crate) fn frame_head(&self) -> FrameHead {
        match self.refused {
            Some(head) => head,
            None => FrameHead::of(self.conversation.held()),
        }
    }

    /// When it will have taken too long, if nothing happens until then.
    pub(crate) fn deadline(&self, limits: TimeLimits) -> Option<Instant> {
        let idle = deadline(limits.idle, self.last_moved);
        if self.waits_for_frame() {
            earlier(idle, deadline(limits.frame, self.began))
        } else {
            idle
        }
    }

    /// The message in front is taken. No piece was read since its frame was whole: what is behind
    /// it came with the last one.
    fn passes_on(&mut self)
        ensures { self.new.conversation ≡ self.old.conversation }
    {
        self.began = self.came;
        self.last_moved = self.time.get();
    }

    /// Whether a frame is begun whose rest is waited for.
    fn waits_for_frame(&self) -> bool {
        self.conversation.unsent().is_empty()
            && !self.conversation.held().is_empty()
            && !self.conversation.is_ready()
    }

    /// What it is that it took too long, or is cut off: a reply wasn't written whole, or it was
    /// read in vain.
    pub(crate) fn late_fault(&self) -> FrontFault {
        if self.conversation.unsent().is_empty() {
            FrontFault::Read
        } else {
            FrontFault::Write(self.conversation.gone() as u64)
        }
    }

    /// It ends by this.
    pub(crate) fn end_by(&self, ending: Ending) {
        self.ending.set(ending);
    }

    /// What ends it, where it ended.
    pub(crate) fn ending(&self) -> Ending {
        self.ending.get()
    }
}

impl Talk for TerminalTalk<'_> {
    ghost use Rattle.acq_link.specs.Deframing.{longest_frame};

    ghost held = { held_in };

    ghost unsent = { unsent_in };

    ghost most = { longest_frame };

    fn room(&self) -> usize {
        self.conversation.room()
    }

    fn feed(&mut self, piece: &[u8]) {
        let now = self.time.get();
        if self.conversation.held().is_empty() {
            self.began = now;
        }
        self.came = now;
        self.last_moved = now;
        self.conversation.feed(piece);
    }

    fn held(&self) -> &[u8] {
        self.conversation.held()
    }

    fn unsent(&self) -> &[u8] {
        self.conversation.unsent()
    }

    fn gone(&self) -> usize {
        self.conversation.gone()
    }

    fn advance(&mut self, n: usize) {
        self.last_moved = self.time.get();
        self.conversation.advance(n);
    }

    fn is_ready(&self) -> bool {
        self.conversation.is_ready()
    }

    fn fault(&self) -> Option<FrontFault> {
        self.conversation.fault()
    }

    fn message(&self, alloc: Global) -> Result<Option<Vec<u8>>, FrontFault> {
        self.conversation.message(alloc)
    }

    fn hold(&mut self, said: &Output, reason: Option<Reason>) -> Result<(), FrontFault> {
        self.passes_on();
        if let Output::Undecodable(_) = said {
            self.refused = Some(FrameHead::of(self.conversation.held()));
        }
        self.conversation.hold(said, reason)
    }

    fn defer(&mut self) {
        self.passes_on();
        self.keep_asking();
        self.conversation.defer();
    }

    fn reply(&mut self, said: &Output, reason: Option<Reason>) {
        // What is there of the next frame couldn't go on before.
        self.began = self.time.get();
        self.last_moved = self.time.get();
        let _ = self.conversation.reply(said, reason);
    }
}
