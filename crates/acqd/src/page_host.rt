//! The host whose page is shown.

use crate::control_host::control_host;
use acq_causes::Signs;
use acq_control::tell;
use acq_link::{MemorySink, ReadSource, Sink, SliceSource, Source, WriteSink};
use acq_page_server::{AskedHost, NoAnswer};
use std::alloc::{AllocError, Global};

/// For how many seconds it is waited for.
const WITHIN: u64 = 1;

/// The host that takes control connections at a path.
#[derive(Clone, Copy)]
pub(crate) struct PageHost<'a> {
    pub(crate) rt: &'a HostRuntime,
    pub(crate) path: &'a str,
    pub(crate) signs: &'a Signs,
}

impl AskedHost for PageHost<'_> {
    fn ask(&self, alloc: Global, lines: &[&[u8]]) -> Result<Vec<Option<Vec<u8>>>, NoAnswer> {
        let Ok((to, from)) = control_host(self.rt, self.path, WITHIN, self.signs) else {
            return Err(NoAnswer);
        };
        let mut to = WriteSink::new(to);
        let mut from = ReadSource::new(from);
        let mut answers = Vec::new(alloc);
        for line in lines.iter() {
            let answer = answer_to(alloc, line, &mut to, &mut from)?;
            answers.push(answer).map_err(AllocError::from)?;
        }
        Ok(answers)
    }
}

/// The bytes of the text that a line is answered with, or nothing if it is answered otherwise.
fn answer_to<L: Sink, A: Source>(
    alloc: Global,
    line: &[u8],
    to: &mut L,
    from: &mut A,
) -> Result<Option<Vec<u8>>, NoAnswer> {
    let mut ended = Vec::from_slice(alloc, line)?;
    ended.extend_from_slice(b"\n")?;
    let mut answer = MemorySink::new(alloc);
    let mut fault = MemorySink::new(alloc);
    let mut asked = SliceSource::new(ended.as_slice());
    match tell(alloc, &mut asked, to, from, &mut answer, &mut fault) {
        Ok(false) => Ok(Some(Vec::from_slice(alloc, answer.as_bytes())?)),
        Ok(true) => Ok(None),
        Err(_) => Err(NoAnswer),
    }
}
