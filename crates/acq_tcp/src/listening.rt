//! What listens for connections that are served at once.

ghost use Rattle.std.specs.Prelude.{IfErr, IfOk};
ghost use Rattle.acq_faults.specs.Faults.{IsOfListening};
ghost use Rattle.acq_tcp.specs.Others.{OthersHadNone, beside_of};

use crate::book_files::BookFiles;
use crate::control_server::{CONTROLS, ControlServer};
use crate::control_stream::ControlStream;
use crate::gateway_server::GatewayServer;
use crate::others::Others;
use crate::sockets::Sockets;
use acq_book::BookFault;
use acq_controls::Controls;
use acq_faults::{Fault, ListenOptions};
use acq_gateway::{DeskStream, GatewayDesk};
use mio::net::{TcpListener, UnixListener};
use mio::{Events, Interest, Poll, Token};
use std::alloc::Global;
use std::fs::Files;
use std::io;
use std::net::{Net, SocketAddr, SocketAddrV4};

/// The token of the listener for terminals.
pub(crate) const LISTENER: usize = 0;

/// That of the listener for control connections, and the first one of theirs.
const CONTROL: usize = 1;

const FIRST_CONTROL: usize = 2;

/// That of the listener for gateways to issuers; that of their connection stands behind it.
pub(crate) const GATEWAY: usize = FIRST_CONTROL + CONTROLS;

/// The token of a terminal's connection whose number is 0; those of the others stand behind it.
pub(crate) const FIRST_TERMINAL: usize = GATEWAY + 2;

/// The place of the host's own control lines, behind those of control connections.
pub(crate) const OWN_LINES: usize = CONTROLS;

/// What listens for connections. The log isn't made with it: a proof goes over all that a function
/// lets go at each of its early ends, and here are five.
#[derive(Drop)]
pub(crate) struct Listening {
    pub(crate) listener: TcpListener,
    pub(crate) poll: Poll,
    pub(crate) events: Events,
    /// Room for the numbers of the connections that one wait may wake.
    pub(crate) woken: Vec<u64>,
    pub(crate) control: Option<ControlServer>,
    pub(crate) others: Others,
    pub(crate) gateway: Option<GatewayServer>,
    pub(crate) book_files: BookFiles,
}

impl Listening {
    /// Listens at the address and the port that are asked for, and beside them at these sockets.
    pub(crate) fn begin<N: Net, T: Files>(
        net: &N,
        files: &T,
        alloc: Global,
        asked: &ListenOptions,
        sockets: Sockets,
    ) -> Result<Listening, Fault>
        ensures fault { IfErr result IsOfListening }
        ensures none_came { IfOk result (λ it. OthersHadNone (beside_of it.others)) }
    {
        let at_once = asked.together.saturating_add(FIRST_TERMINAL);
        let book_files = BookFiles::at(files, alloc, asked.path.as_str())?;
        let events = Events::with_capacity(alloc, at_once)?;
        let woken = Vec::with_capacity(alloc, at_once)?;
        let Ok(others) = others_at(alloc, &sockets.desk) else {
            return Err(Fault::Memory);
        };
        let Ok((listener, poll)) = listener_at(net, asked.endpoint) else {
            return Err(Fault::Read);
        };
        let control = control_at(alloc, sockets.control, &poll)?;
        match gateway_at(sockets.gateway, &poll, sockets.desk) {
            Ok(gateway) => Ok(Listening {
                listener,
                poll,
                events,
                woken,
                control,
                others,
                gateway,
                book_files,
            }),
            Err(fault) => Err(fault),
        }
    }
}

/// The places of control connections, and that of the host's own control lines; and no gateway.
fn others_at(alloc: Global, desk: &GatewayDesk) -> Result<Others, BookFault>
    ensures { IfOk result (λ others. OthersHadNone (beside_of others)) }
{
    let mut controls = Controls::new(alloc, CONTROLS + 1)?;
    let own = ControlStream::Desk(DeskStream::new(alloc, desk.share()?));
    controls.admit(OWN_LINES, own);
    let others = Others::new(controls);
    Ok(others)
}

/// Gateways to a listener, if there is one.
fn gateway_at(
    listener: Option<UnixListener>,
    poll: &Poll,
    desk: GatewayDesk,
) -> Result<Option<GatewayServer>, Fault>
    ensures { IfErr result IsOfListening }
{
    let Some(listener) = listener else {
        return Ok(None);
    };
    match GatewayServer::new(listener, poll.registry(), GATEWAY, desk) {
        Ok(gateway) => Ok(Some(gateway)),
        Err(fault) => Err(fault),
    }
}

/// Control connections to a listener, if there is one.
fn control_at(
    alloc: Global,
    listener: Option<UnixListener>,
    poll: &Poll,
) -> Result<Option<ControlServer>, Fault>
    ensures { IfErr result IsOfListening }
{
    let Some(listener) = listener else {
        return Ok(None);
    };
    match ControlServer::new(
        alloc,
        listener,
        poll.registry(),
        Token(CONTROL),
        FIRST_CONTROL,
    ) {
        Ok(control) => Ok(Some(control)),
        Err(fault) => Err(fault),
    }
}

/// A listener at an address and a port of this machine, and what waits for it.
fn listener_at<N: Net>(net: &N, endpoint: SocketAddrV4) -> io::Result<(TcpListener, Poll)> {
    let mut listener = TcpListener::bind(net, SocketAddr::V4(endpoint))?;
    let poll = Poll::new(net)?;
    poll.registry()
        .register(&mut listener, Token(LISTENER), Interest::READABLE)?;
    Ok((listener, poll))
}
