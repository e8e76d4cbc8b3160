//! `rows`: says what the crates read a text as, for rows that the built program can't be asked.
//!
//! Its input is a byte, the number of a kind, and the text, whose bytes may be any. Its output is
//! what is said of the text, in which a character below 256 is the byte of this number. Where there
//! is no such kind, or the text is not in its form, it says nothing and fails. What asks it is
//! `tests/rows/inside.py`, which has the names of the kinds.
#![tactic(auto)]

mod answers;
mod asked_book;
mod asking;
mod cards;
mod days;
mod failing_reader;
mod messages;
mod ranges;
mod texts;
mod values;

use answers::put_answer;
use std::io::Read;
use std::process::ExitCode;

fn main(rt: HostRuntime) -> ExitCode {
    match answer(&rt) {
        Some(answer) if rt.print(answer.as_str()).is_ok() => ExitCode::SUCCESS,
        _ => ExitCode::FAILURE,
    }
}

/// What is said of the text that is read.
fn answer(rt: &HostRuntime) -> Option<String> {
    let mut question = Vec::new(rt.alloc());
    let mut answer = String::new(rt.alloc());
    let read = rt.stdin().read_to_end(&mut question).ok();
    let said = read.and(put_answer(rt, question.as_slice(), &mut answer));
    said.map(|()| answer)
}
