//! What a connection is to have.

use crate::script::put_frame;
use acq_core::{Output, Query};
use std::alloc::Global;

/// What a connection is to have, by the plain run.
#[derive(Drop)]
pub struct PlainConnection {
    /// How many of its messages were taken.
    pub taken: usize,
    /// The frames of what was said to them.
    pub replies: Vec<u8>,
    /// Where the last of these begins.
    pub last: usize,
    /// Whether the last message spelled none.
    pub is_unread: bool,
    /// What its last message asked, where its issuer answers later and didn't yet.
    pub asked: Option<Query>,
}

impl PlainConnection {
    /// Nothing was taken yet.
    pub fn new(alloc: Global) -> PlainConnection {
        PlainConnection {
            taken: 0,
            replies: Vec::new(alloc),
            last: 0,
            is_unread: false,
            asked: None,
        }
    }

    /// Its next message was taken, or the answer to it, and this was said. `None` where memory runs
    /// out.
    pub fn hold(&mut self, said: &Output) -> Option<()> {
        match said {
            Output::Reply(_, text) => {
                self.last = self.replies.len();
                put_frame(&mut self.replies, text.as_bytes())
            }
            Output::Undecodable(_) => {
                self.is_unread = true;
                Some(())
            }
            _ => Some(()),
        }
    }
}
