//! A connection to the port at which a host takes terminals' connections.

ghost use Rattle.std.specs.Prelude.{◌≡◌, ◌⊎◌, IfErr};
ghost use Rattle.acq_faults.specs.declared.fault.Fault.TheVariants.{Read, Silent};

use crate::host_line::HostLine;
use acq_causes::{Lack, Signs};
use acq_faults::Fault;
use std::io::{self, ErrorKind};
use std::net::{SocketAddr, SocketAddrV4, TcpStream};
use std::thread;
use std::time::Duration;

/// How often a host that takes no connection is called again, as one that was just started, and for
/// how many milliseconds it pauses before: five seconds in all.
const CALLS: u32 = 100;

const PAUSE: u64 = 50;

/// Both sides of a connection to the host at an address and a port, for which so many seconds are
/// waited, and for each reply; 0 is for ever. The first is for messages, the second for replies.
pub(crate) fn terminals_host<'a>(
    rt: &HostRuntime,
    endpoint: SocketAddrV4,
    within: u64,
    signs: &'a Signs,
) -> Result<(HostLine<'a, TcpStream>, HostLine<'a, TcpStream>), Fault>
    ensures { IfErr result (λ fault. fault ≡ Read ⊎ fault ≡ Silent) }
{
    let limit = (within > 0).then(|| Duration::from_secs(within));
    let silent = &signs.silent;
    match connected(rt, endpoint, limit) {
        Ok((requests, replies)) => Ok((
            HostLine::new(requests, silent),
            HostLine::new(replies, silent),
        )),
        Err(fault) if fault.kind() == ErrorKind::TimedOut => Err(Fault::Silent),
        Err(fault) => {
            signs.note(Lack::TerminalsHost(fault.kind()));
            Err(Fault::Read)
        }
    }
}

/// A connection, to write to and to read from, each of which waits so long at most.
fn connected(
    rt: &HostRuntime,
    endpoint: SocketAddrV4,
    limit: Option<Duration>,
) -> io::Result<(TcpStream, TcpStream)> {
    let requests = reached(rt, endpoint, limit)?;
    // A frame goes out as it comes, and waits for no other one.
    requests.set_nodelay(true)?;
    requests.set_read_timeout(limit)?;
    requests.set_write_timeout(limit)?;
    let replies = requests.try_clone()?;
    Ok((requests, replies))
}

/// A connection, as soon as somebody listens.
fn reached(
    rt: &HostRuntime,
    endpoint: SocketAddrV4,
    limit: Option<Duration>,
) -> io::Result<TcpStream> {
    for _ in 0..CALLS {
        match connection(rt, endpoint, limit) {
            Err(fault) if fault.kind() == ErrorKind::ConnectionRefused => {}
            ended => return ended,
        }
        thread::sleep(rt, Duration::from_millis(PAUSE));
    }
    connection(rt, endpoint, limit)
}

/// A connection, if somebody listens.
fn connection(
    rt: &HostRuntime,
    endpoint: SocketAddrV4,
    limit: Option<Duration>,
) -> io::Result<TcpStream> {
    match limit {
        Some(limit) => TcpStream::connect_timeout(rt, &SocketAddr::V4(endpoint), limit),
        None => TcpStream::connect(rt, endpoint),
    }
}
