//! `simulator`: runs of many connections to one host, drawn from seeds, each beside a plain run.
//!
//! A run of a seed makes a book, some connections and what terminals send over them, events of a
//! control connection, and sometimes a fault of the book. [`acq_rounds::serve`] serves them at a gate
//! in memory, which lets connections come, wait, break off and read slowly as it is drawn. Then a
//! host over a book that is made anew takes the same messages and events, plainly one after the
//! other in the order that the gate noted, and the two are compared: the bytes that each connection
//! got, how it ended, whom each group served, and the books.
//!
//! Its arguments are the first seed and how many; it prints what was done, or of each seed at which
//! a difference shows what differs.
#![tactic(auto)]

mod comparing;
mod counting_clock;
mod difference;
mod drawing;
mod ending;
mod failing_book;
mod groups;
mod messages;
mod opening;
mod plain_connection;
mod plain_run;
mod rule_issuer;
mod sale;
mod scene;
mod script;
mod served_run;
mod texts;
mod tried;
mod trying;

use std::env;
use std::hash::RandomState;
use std::process::ExitCode;
use tried::Tried;
use trying::try_seed;

fn main(rt: HostRuntime) -> ExitCode {
    match run(&rt) {
        Some(true) => ExitCode::SUCCESS,
        _ => ExitCode::FAILURE,
    }
}

/// Runs the seeds that the arguments name, and returns whether no run differs.
fn run(rt: &HostRuntime) -> Option<bool> {
    let (first, count) = asked(rt)?;
    let keys = RandomState::new(rt).ok()?;
    let (mut tried, mut differ) = (Tried::nothing(), 0u64);
    for n in 0..count {
        let seed = first.wrapping_add(n);
        match try_seed(rt.alloc(), keys, seed) {
            Ok(run) => tried = tried.with(&run),
            Err(difference) => {
                differ = differ.wrapping_add(1);
                println!(rt; "seed {seed}: {difference}").ok()?;
            }
        }
    }
    println!(rt; "{count} runs: {tried} by a fault, {differ} differ").ok()?;
    Some(differ == 0)
}

/// The first seed and how many.
fn asked(rt: &HostRuntime) -> Option<(u64, u64)> {
    let mut words = env::args(rt).ok()?;
    words.next()?;
    let first = words.next()?.as_str().parse::<u64>().ok()?;
    let count = words.next()?.as_str().parse::<u64>().ok()?;
    Some((first, count))
}
