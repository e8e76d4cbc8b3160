//! Connections over TCP.

use crate::parting::{PIECE, Parting, ends_in_bad_frame};
use crate::patient_stream::{PatientReader, PatientWriter};
use crate::time_limits::TimeLimits;
use acq_book::Book;
use acq_faults::Patience;
use acq_front::{Clock, FrontFault, Issuer};
use acq_host::Host;
use acq_link::{Call, ReadSource, Transcript, WriteSink};
use acq_serving::{Connections, LaterEnd, serve_ends};
use std::alloc::Global;
use std::io::{ErrorKind, Read};
use std::net::{Shutdown, TcpListener, TcpStream};
use std::time::{Duration, Instant};
use std::{io, thread, time};

/// For how many milliseconds it pauses behind a connection that can't be had.
pub(crate) const PAUSE: u64 = 100;

/// The connections that come to a listener.
#[derive(Drop)]
pub struct TcpConnections<'a, T> {
    listener: TcpListener,
    time: &'a T,
    limits: TimeLimits,
    received: Transcript,
    sent: Transcript,
}

impl<'a, T: time::Clock> TcpConnections<'a, T> {
    /// The connections of this listener. One that takes longer than this patience lasts is closed.
    pub fn new(listener: TcpListener, time: &'a T, patience: Patience) -> TcpConnections<'a, T> {
        TcpConnections {
            listener,
            time,
            limits: TimeLimits::new(patience),
            received: Transcript::new(),
            sent: Transcript::new(),
        }
    }

    /// Waits for the next one.
    fn next_stream(&self) -> io::Result<TcpStream> {
        let (stream, _) = self.listener.accept()?;
        stream.set_read_timeout(self.limits.idle)?;
        stream.set_write_timeout(self.limits.idle)?;
        stream.set_nodelay(true)?;
        Ok(stream)
    }

    /// Ends the sending side of a connection, and reads on for a while what still comes.
    fn part_with(&self, stream: &TcpStream) {
        if stream.shutdown(Shutdown::Write).is_err() {
            return;
        }
        let mut parting = Parting::new(self.now());
        let mut thrown_away = [0; PIECE];
        for _ in 0..u64::MAX {
            let left = parting.time_left(self.now());
            if left.is_zero() || stream.set_read_timeout(Some(left)).is_err() {
                break;
            }
            let mut reader = stream;
            match reader.read(&mut thrown_away) {
                Ok(n) if n > 0 => parting.took(n),
                Err(fault) if fault.kind() == ErrorKind::Interrupted => {}
                Ok(_) | Err(_) => break,
            }
        }
    }

    /// The time, where the system tells it.
    fn now(&self) -> Option<Instant> {
        Instant::now(self.time).ok()
    }
}

impl<T: time::Clock> Connections for TcpConnections<'_, T> {
    ghost use Rattle.acq_tcp.specs.Passing.{received_of, sent_of};
    ghost use Rattle.acq_tcp.specs.Passing.{read_failures_of, write_failures_of};

    ghost received = { received_of };

    ghost sent = { sent_of };

    ghost read_failures = { read_failures_of };

    ghost write_failures = { write_failures_of };

    fn serve_next<B: Book + Drop, C: Clock, I: Issuer>(
        &mut self,
        alloc: Global,
        host: &mut Host<B>,
        clock: &mut C,
        issuer: &mut I,
    ) -> Result<(), FrontFault> {
        let stream = self.next_stream().ok();
        let mut ends = None;
        if let Some(stream) = &stream {
            let reader = PatientReader::new(stream, self.time, self.limits);
            let writer = PatientWriter::new(stream);
            ends = Some((
                LaterEnd::new(ReadSource::new(reader), &self.received),
                LaterEnd::new(WriteSink::new(writer), &self.sent),
            ));
        }
        let ended = serve_ends(alloc, host, &mut ends, clock, issuer);
        match ends {
            Some((source, sink)) => {
                self.received = source.into_transcript();
                self.sent = sink.into_transcript();
            }
            None => self.received = self.received.after(&Call::Failed),
        }
        match &stream {
            Some(stream) if ends_in_bad_frame(&ended) => self.part_with(stream),
            Some(_) => {}
            None => thread::sleep(self.time, Duration::from_millis(PAUSE)),
        }
        ended
    }
}
