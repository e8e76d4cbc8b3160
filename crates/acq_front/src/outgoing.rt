//! Bytes of one frame that are still to be written.

ghost use Rattle.std.specs.Prelude.{◌≡◌, ◌+◌, ◌≤◌, ⊤, [], length, drop, Ok};
ghost use Rattle.acq_link.specs.Deframing.{longest_frame};
ghost use Rattle.acq_front.specs.Faults.{IfStore};
ghost use Rattle.acq_front.specs.Turns.{OfTaking, ReplyFits};

use crate::frame_buffer::FrameBuffer;
use crate::front_fault::FrontFault;
use acq_core::Output;
use acq_link::LONGEST_MESSAGE;

/// Bytes of one frame that are still to be written.
#[derive(Drop)]
pub(crate) struct Outgoing {
    frame: FrameBuffer,
    /// How many bytes of it were written on.
    gone: usize,
    ghost within: { gone ≤ length frame },
    ghost fits: { length frame ≤ longest_frame },
}

impl Outgoing {
    ghost use Rattle.acq_front.specs.Outgoing.{bytes_of, frame_of, frame_said, gone_from};

    /// No byte.
    pub(crate) fn new() -> Outgoing
        ensures frame { frame_of result ≡ [] }
        ensures gone { gone_from result ≡ 0 }
    {
        Outgoing {
            frame: FrameBuffer::new(),
            gone: 0,
        }
    }

    pub(crate) fn as_slice(&self) -> &[u8]
        ensures { result.now ≡ bytes_of self.now }
    {
        &self.frame.as_slice()[self.gone..]
    }

    /// How many bytes were written on.
    pub(crate) fn gone(&self) -> usize
        ensures { result ≡ gone_from self.now }
    {
        self.gone
    }

    /// So many bytes were written on.
    pub(crate) fn advance(&mut self, n: usize)
        requires { n ≤ length (bytes_of self.old) }
        ensures bytes { bytes_of self.new ≡ drop n (bytes_of self.old) }
        ensures frame { frame_of self.new ≡ frame_of self.old }
        ensures gone { gone_from self.new ≡ gone_from self.old + n }
    {
        self.gone += n;
    }

    /// Holds no byte any more.
    pub(crate) fn clear(&mut self)
        ensures frame { frame_of self.new ≡ [] }
        ensures gone { gone_from self.new ≡ 0 }
    {
        self.gone = 0;
        self.frame.clear();
    }

    /// Holds what the host said, if it is a reply, as a frame. A reply that fits no frame can only
    /// come of rows that no host wrote.
    pub(crate) fn hold(&mut self, said: &Output) -> Result<(), FrontFault>
        requires { frame_of self.old ≡ [] }
        ensures gone { gone_from self.new ≡ gone_from self.old }
        ensures holds { ReplyFits said.now → frame_of self.new ≡ frame_said said.now }
        ensures well { ReplyFits said.now → result ≡ Ok tt }
        ensures fault { OfTaking result }
        ensures store { IfStore result (ReplyFits said.now → ⊥) }
    {
        let Output::Reply(_, reply) = said else {
            return Ok(());
        };
        let text = reply.as_bytes();
        if text.is_empty() || text.len() > LONGEST_MESSAGE {
            return Err(FrontFault::Store);
        }
        let length = text.len() as u16;
        self.frame.push(&length.to_be_bytes());
        self.frame.push(text);
        Ok(())
    }
}
