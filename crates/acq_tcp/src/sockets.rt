//! Sockets' files that are listened at beside the port.

use acq_gateway::GatewayDesk;
use mio::net::UnixListener;

/// Sockets' files that are listened at beside the port, where they are asked for: that of control
/// connections, and that of a gateway to issuers, for which requests lie at this desk.
#[derive(Drop)]
pub struct Sockets {
    pub control: Option<UnixListener>,
    pub gateway: Option<UnixListener>,
    pub desk: GatewayDesk,
}
