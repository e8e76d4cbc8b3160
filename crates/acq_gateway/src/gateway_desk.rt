//! Where requests lie whose issuers are asked over a gateway.

use crate::waiting::Waiting;
use acq_core::{MessageText, Query};
use std::alloc::{AllocError, Global};
use std::cell::{RefCell, RefMut};
use std::rc::Rc;
use std::time::Duration;

/// Where requests lie whose issuers are asked over a gateway: whoever serves terminals asks here,
/// and the gateway's own side brings its answers. Each of them has the same desk, by a name of its
/// own. What the cell has nobody else has at the same time: each call gives it back.
#[derive(Drop)]
pub struct GatewayDesk {
    waiting: Rc<RefCell<Waiting>>,
}

impl GatewayDesk {
    /// Nothing is asked, and no gateway is connected.
    pub fn new(alloc: Global) -> Result<GatewayDesk, AllocError> {
        let waiting = RefCell::new(Waiting::new(alloc));
        Ok(GatewayDesk {
            waiting: Rc::new(alloc, waiting)?,
        })
    }

    /// The same desk, under one name more.
    pub fn share(&self) -> Result<GatewayDesk, AllocError> {
        Ok(GatewayDesk {
            waiting: self.waiting.clone()?,
        })
    }

    /// What lies there.
    pub(crate) fn waiting(&self) -> Option<RefMut<'_, Waiting>> {
        self.waiting.try_borrow_mut().ok()
    }

    /// A gateway is waited for so long, where none is connected.
    pub fn set_patience(&self, patience: Duration) {
        if let Some(mut waiting) = self.waiting() {
            waiting.set_patience(patience);
        }
    }

    /// The message of a query came so.
    pub fn note_message(&self, query: &Query, message: Vec<u8>) {
        if let Some(mut waiting) = self.waiting() {
            waiting.note_message(query, MessageText::from_vec(message));
        }
    }

    /// Whether there are lines for the host, of answers that nobody waits for.
    pub fn has_lines(&self) -> bool {
        match self.waiting() {
            Some(waiting) => waiting.has_lines(),
            None => false,
        }
    }

    /// These lines, which are handed on now.
    pub fn take_lines(&self) -> Option<Vec<u8>> {
        let mut waiting = self.waiting()?;
        Some(waiting.take_lines())
    }
}
