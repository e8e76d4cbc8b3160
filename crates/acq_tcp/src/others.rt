//! Whoever else is served between two groups.

ghost use Rattle.acq_controls.specs.Aside.{aside_of};
ghost use Rattle.acq_controls.specs.Following.{HadNone};
ghost use Rattle.acq_tcp.specs.Others.{OthersHadNone, beside_of};

use crate::control_stream::ControlStream;
use acq_controls::Controls;
use acq_gateways::Gateways;
use mio::net::UnixStream;
use std::alloc::Global;

/// Whoever else is served between two groups: control connections, and gateways to issuers that
/// connect one after the other.
#[derive(Drop)]
pub(crate) struct Others {
    pub(crate) controls: Controls<ControlStream>,
    pub(crate) gateways: Gateways<UnixStream>,
}

impl Others {
    /// These control connections, to which none came yet, and no gateway.
    pub(crate) fn new(controls: Controls<ControlStream>) -> Others
        requires { HadNone (aside_of controls) }
        ensures { OthersHadNone (beside_of result) }
    {
        Others {
            controls,
            gateways: Gateways::new(),
        }
    }

    /// No place for any.
    pub(crate) fn without_places(alloc: Global) -> Others {
        Others {
            controls: Controls::without_places(alloc),
            gateways: Gateways::new(),
        }
    }
}
