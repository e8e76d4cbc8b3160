//! What came of one message that was sent many times.

ghost use Rattle.std.specs.Prelude.{◌≡◌, ◌∷◌, ◌++◌, [], OnErr, OnOk};
ghost use Rattle.acq_ask.specs.Codes.{code_of};

use crate::reply_code::ReplyCode;
use std::alloc::{AllocError, Global};

/// What came of one message that was sent many times.
#[derive(Drop)]
pub(crate) struct Load {
    /// The response codes of the replies, in order.
    pub(crate) codes: Vec<ReplyCode>,
    /// How many microseconds each took.
    pub(crate) times: Vec<u64>,
    /// How many all of it took.
    pub(crate) micros: u64,
}

impl Load {
    /// Nothing came yet.
    pub(crate) fn new(alloc: Global) -> Load
        ensures { result.codes.items ≡ [] }
    {
        Load {
            codes: Vec::new(alloc),
            times: Vec::new(alloc),
            micros: 0,
        }
    }

    /// Counts a reply that took so many microseconds. After an `Err` it isn't counted.
    pub(crate) fn add(&mut self, alloc: Global, reply: &[u8], micros: u64) -> Result<(), AllocError>
        ensures ok { OnOk result (self.new.codes.items
            ≡ self.old.codes.items ++ code_of reply.now ∷ []) }
        ensures err { OnErr result (self.new.codes.items ≡ self.old.codes.items) }
    {
        let code = ReplyCode::of(alloc, reply)?;
        self.times.push(micros)?;
        self.codes.push(code)?;
        Ok(())
    }
}
