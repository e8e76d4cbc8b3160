//! A connection to a host's control socket.

ghost use Rattle.std.specs.Prelude.{◌≡◌, ◌⊎◌, IfErr};
ghost use Rattle.acq_faults.specs.declared.fault.Fault.TheVariants.{Read, Silent};

use crate::host_line::HostLine;
use acq_causes::{Lack, Signs};
use acq_faults::Fault;
use mio::net;
use std::io::{self, ErrorKind};
use std::os::unix::net::UnixStream;
use std::thread;
use std::time::{Duration, Instant};

/// For how many milliseconds it pauses while the host takes no connection.
const PAUSE: u64 = 50;

/// Both sides of a connection to the host that takes control connections at a path, for which so
/// many seconds are waited, and for each answer; 0 is for ever. The first is for lines, the second
/// for answers.
pub(crate) fn control_host<'a>(
    rt: &HostRuntime,
    path: &str,
    within: u64,
    signs: &'a Signs,
) -> Result<(HostLine<'a, UnixStream>, HostLine<'a, UnixStream>), Fault>
    ensures { IfErr result (λ fault. fault ≡ Read ⊎ fault ≡ Silent) }
{
    let limit = (within > 0).then(|| Duration::from_secs(within));
    let silent = &signs.silent;
    match connected(rt, path, limit) {
        Ok((lines, answers)) => Ok((HostLine::new(lines, silent), HostLine::new(answers, silent))),
        Err(fault) if fault.kind() == ErrorKind::WouldBlock => Err(Fault::Silent),
        Err(fault) => {
            signs.note(Lack::Host(fault.kind()));
            Err(Fault::Read)
        }
    }
}

/// A connection to the socket at a path, to write to and to read from. A host that takes none at
/// once is asked again, until the time is over.
fn connected(
    rt: &HostRuntime,
    path: &str,
    limit: Option<Duration>,
) -> io::Result<(UnixStream, UnixStream)> {
    let began = Instant::now(rt)?;
    for _ in 0..u64::MAX {
        match net::UnixStream::connect(rt, path) {
            Ok(stream) => return both_ends(UnixStream::from(stream), limit),
            Err(fault) if fault.kind() != ErrorKind::WouldBlock => return Err(fault),
            Err(_) => {}
        }
        let waited = Instant::now(rt)?.duration_since(began);
        if limit.is_some_and(|limit| waited >= limit) {
            break;
        }
        thread::sleep(rt, Duration::from_millis(PAUSE));
    }
    Err(io::Error::from(ErrorKind::WouldBlock))
}

/// A connection twice, whose reads and writes wait so long at most.
fn both_ends(lines: UnixStream, limit: Option<Duration>) -> io::Result<(UnixStream, UnixStream)> {
    lines.set_nonblocking(false)?;
    lines.set_read_timeout(limit)?;
    lines.set_write_timeout(limit)?;
    let answers = lines.try_clone()?;
    Ok((lines, answers))
}
