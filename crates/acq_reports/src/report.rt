//! Reports in writing.

ghost use Rattle.std.specs.Prelude.{◌≡◌, ℕ, List, [], None, IfOk, IsTrue};
ghost use Rattle.acq_reports.specs.Writing.{Ends, Puts, Settles, end_of};

use crate::piece_buffer::PieceBuffer;
use crate::report_fault::ReportFault;
use crate::stop::Stop;
use acq_book::BookFault;
use acq_link::{Sink, write_out};
use std::alloc::{AllocError, Global};

/// A report in writing: where it goes, what is held until a piece of it is full, how much of it
/// went out, and why it stopped, if it did. What walks a book may hold one, and put a text for each
/// row. After the last text it is to be ended, since some of it may be held until then.
#[derive(Drop)]
pub struct Report<'a, K> {
    alloc: Global,
    writer: &'a mut K,
    /// What was put and didn't go out yet.
    held: PieceBuffer,
    /// How many bytes went out.
    written: u64,
    stop: Option<Stop>,
}

impl<'a, K: Sink> Report<'a, K> {
    /// Nothing was put yet.
    pub fn new(alloc: Global, writer: &'a mut K) -> Report<'a, K>
        ensures same_writer { result.writer.ghost_name ≡ writer.entry.ghost_name }
        ensures writer { result.writer.now ≡ writer.old }
        ensures written { (result.written ≡ 0) × (result.held ≡ []) }
        ensures stop { result.stop ≡ None }
    {
        Report {
            alloc,
            writer,
            held: PieceBuffer::new(),
            written: 0,
            stop: None,
        }
    }

    /// Puts a text, and returns whether more may follow: then it went out or is held. What is held
    /// goes out where a text doesn't fit behind it; one that no piece can hold goes out by itself.
    pub fn put(&mut self, text: &[u8]) -> bool
        ensures { Puts K.sent K.failures text.now self.old result self.new }
    {
        if text.len() <= self.held.room() {
            self.held.push(text);
            return true;
        }
        if !self.send_held() {
            return false;
        }
        if text.len() <= self.held.room() {
            self.held.push(text);
            return true;
        }
        self.send(text)
    }

    /// Puts a text that was made, and returns whether more may follow.
    pub fn put_made(&mut self, made: Result<Vec<u8>, AllocError>) -> bool
        ensures { (text : List ℕ) → IfOk made (λ bytes. bytes.items ≡ text)
            → Puts K.sent K.failures text self.old result self.new }
    {
        match made {
            Ok(text) => self.put(text.as_slice()),
            Err(AllocError) => {
                self.stop = Some(Stop::Memory);
                false
            }
        }
    }

    /// Where memory comes from.
    pub fn alloc(&self) -> Global {
        self.alloc
    }

    /// What the report ends with, after a walk that ended so. What is still held goes out, unless
    /// the walk failed or the report stopped.
    #[tactic(auto, using(crate::proofs::Lines::ended))]
    pub fn end(&mut self, walked: Result<(), BookFault>) -> Result<(), ReportFault>
        ensures { Ends K.sent K.failures walked self.old result self.new }
    {
        self.settle(walked)
    }

    fn settle(&mut self, walked: Result<(), BookFault>) -> Result<(), ReportFault>
        ensures tells { result ≡ end_of walked self.new.stop }
        ensures settles { Settles K.sent K.failures walked self.old.stop self.old self.new }
    {
        if let Err(fault) = walked {
            return Err(ReportFault::from(fault));
        }
        if self.stop.is_none() {
            self.send_held();
        }
        match self.stop {
            None => Ok(()),
            Some(Stop::Memory) => Err(ReportFault::Memory),
            Some(Stop::Write(bytes)) => Err(ReportFault::Write(bytes)),
        }
    }

    /// Writes what is held, and returns whether all of it went out.
    fn send_held(&mut self) -> bool
        ensures puts { Puts K.sent K.failures [] self.old result self.new }
        ensures empty { IsTrue result → self.new.held ≡ [] }
    {
        let Some(written) = self.written.checked_add(self.held.as_slice().len() as u64) else {
            self.stop = Some(Stop::Memory);
            return false;
        };
        match write_out(self.writer, self.held.as_slice()) {
            Ok(()) => {
                self.held.clear();
                self.written = written;
                true
            }
            Err(bytes) => {
                self.stop = Some(Stop::Write(self.written + bytes));
                false
            }
        }
    }

    /// Writes a text by itself, and returns whether all of it went out.
    fn send(&mut self, text: &[u8]) -> bool
        requires { self.old.held ≡ [] }
        ensures { Puts K.sent K.failures text.now self.old result self.new }
    {
        let Some(written) = self.written.checked_add(text.len() as u64) else {
            self.stop = Some(Stop::Memory);
            return false;
        };
        match write_out(self.writer, text) {
            Ok(()) => {
                self.written = written;
                true
            }
            Err(bytes) => {
                self.stop = Some(Stop::Write(self.written + bytes));
                false
            }
        }
    }
}
