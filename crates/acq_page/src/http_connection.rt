//! Connections, without their sockets.

ghost use Rattle.std.specs.Prelude.{◌≡◌, take};
ghost use Rattle.acq_page.specs.Requests.{longest_head};

use crate::reading::{LONGEST_HEAD, asked_by};
use crate::request::Request;
use std::alloc::{AllocError, Global};

/// A connection that brings one request and takes one reply. It neither reads nor writes: it is fed
/// with what comes, and says what is to be written, and when it is over.
#[derive(Drop)]
pub struct HttpConnection {
    /// What came, up to the end of the head.
    came: Vec<u8>,
    /// The reply, once there is one.
    reply: Option<Vec<u8>>,
    /// How many of its bytes went out.
    written: usize,
}

impl HttpConnection {
    ghost use Rattle.std.specs.Prelude.{◌++◌, ◌≤◌, [], IfOk, OnErr, OnOk, drop, length};
    ghost use Rattle.acq_page.specs.Connections.{came_over, is_over, to_write};
    ghost use Rattle.acq_page.specs.Requests.{IsAskedBy};

    /// One that brought nothing yet.
    pub fn new(alloc: Global) -> HttpConnection
        ensures came { came_over result ≡ [] }
        ensures none { to_write result ≡ [] }
    {
        HttpConnection {
            came: Vec::new(alloc),
            reply: None,
            written: 0,
        }
    }

    /// Takes in what came next, and says what is asked, once that is known. A head is looked for in
    /// the first bytes alone.
    pub fn feed(&mut self, piece: &[u8]) -> Result<Option<Request>, AllocError>
        ensures asked { IfOk result (IsAskedBy (take longest_head (came_over self.new))) }
        ensures came { OnOk result (came_over self.new ≡ came_over self.old ++ piece.now) }
        ensures unfed { OnErr result (came_over self.new ≡ came_over self.old) }
        ensures reply { to_write self.new ≡ to_write self.old }
    {
        self.came.extend_from_slice(piece)?;
        Ok(asked_by(front_of(self.came.as_slice())))
    }

    /// Begins with its reply.
    pub fn reply(&mut self, reply: Vec<u8>)
        ensures { to_write self.new ≡ reply.items }
    {
        self.reply = Some(reply);
        self.written = 0;
    }

    /// What is to be written.
    pub fn to_write(&self) -> &[u8]
        ensures { result.now ≡ to_write self.now }
    {
        match &self.reply {
            Some(reply) => &reply.as_slice()[self.written.min(reply.len())..],
            None => &[],
        }
    }

    /// So many bytes of that went out.
    pub fn wrote(&mut self, bytes: usize)
        requires { bytes ≤ length (to_write self.old) }
        ensures { to_write self.new ≡ drop bytes (to_write self.old) }
    {
        self.written += bytes;
    }

    /// Whether its whole reply went out.
    pub fn is_over(&self) -> bool
        ensures { result ≡ is_over self.now }
    {
        self.reply.is_some() && self.to_write().is_empty()
    }
}

/// The first bytes, in which a head is looked for.
fn front_of(bytes: &[u8]) -> &[u8]
    ensures { result.now ≡ take longest_head bytes.now }
{
    if bytes.len() > LONGEST_HEAD {
        &bytes[..LONGEST_HEAD]
    } else {
        bytes
    }
}
