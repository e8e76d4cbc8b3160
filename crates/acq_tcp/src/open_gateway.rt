//! A gateway that is connected.

use crate::connection_name::ConnectionName;
use acq_gateway::Gateway;
use acq_gateways::Readiness;

/// A gateway that is connected: what is known of it beside what passes over its socket.
#[derive(Drop)]
pub(crate) struct OpenGateway {
    name: ConnectionName,
    pub(crate) ready: Readiness,
    /// Whether there may be rows that it wasn't told.
    pub(crate) has_news: bool,
}

impl OpenGateway {
    /// One of this name that connected now.
    pub(crate) fn new(name: ConnectionName) -> OpenGateway {
        OpenGateway {
            name,
            ready: Readiness::new(),
            has_news: false,
        }
    }

    /// What it is called.
    pub(crate) fn name(&self) -> ConnectionName {
        self.name
    }

    /// The system says that there may be something to do.
    pub(crate) fn make_ready(&mut self) {
        self.ready = Readiness::new();
    }

    /// Whether a round finds something to do, though nothing comes.
    pub(crate) fn is_ready(&self, gateway: &Gateway) -> bool {
        self.has_news
            || self.ready.may_read && gateway.has_room()
            || self.ready.may_write && !gateway.unsent().is_empty()
            || gateway.has_more()
    }
}
