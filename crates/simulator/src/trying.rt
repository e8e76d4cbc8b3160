//! A seed is tried.

use crate::comparing::compare_connections;
use crate::difference::Difference;
use crate::drawing::draw_scene;
use crate::groups::check_groups;
use crate::opening::opened_host;
use crate::plain_run::run_plainly;
use crate::scene::Scene;
use crate::served_run::{ServedRun, serve_seed};
use crate::texts::book_texts;
use crate::tried::Tried;
use acq_book::Book;
use acq_host::Host;
use acq_memory_lines::Noted;
use std::alloc::Global;
use std::hash::RandomState;

/// Runs a seed at a gate and plainly, and returns what was done, or the first difference.
pub fn try_seed(alloc: Global, keys: RandomState, seed: u64) -> Result<Tried, Difference> {
    let run = serve_seed(alloc, keys, seed).ok_or(Difference::NoMemory)?;
    compare_with_plain(alloc, keys, seed, &run)
}

/// Compares a run of a seed with its plain run.
fn compare_with_plain(
    alloc: Global,
    keys: RandomState,
    seed: u64,
    run: &ServedRun,
) -> Result<Tried, Difference> {
    if run.is_stopped != run.is_refused {
        return Err(Difference::Stopped);
    }
    let groups = check_groups(alloc, run.gate.noted())?;
    if groups != run.kept {
        return Err(Difference::Kept);
    }
    compare_seed(alloc, keys, seed, run)?;
    Ok(tried_in(run, groups))
}

/// Makes the plain run of a seed, and compares with it.
fn compare_seed(
    alloc: Global,
    keys: RandomState,
    seed: u64,
    run: &ServedRun,
) -> Result<(), Difference> {
    let Some(mut scene) = draw_scene(alloc, seed) else {
        return Err(Difference::NoMemory);
    };
    let Some(mut host) = opened_host(alloc, keys) else {
        return Err(Difference::NoMemory);
    };
    compare_scene(alloc, &mut host, &mut scene, run)
}

/// Makes the plain run of a scene over this host, and compares with it.
fn compare_scene<B: Book + Drop>(
    alloc: Global,
    host: &mut Host<B>,
    scene: &mut Scene,
    run: &ServedRun,
) -> Result<(), Difference> {
    let noted = run.gate.noted();
    let plain = run_plainly(alloc, host, scene, noted)?;
    let parted = run.gate.parted();
    compare_connections(scene, plain.as_slice(), parted, noted, run.is_stopped)?;
    compare_books(alloc, host, scene, run)
}

/// Compares what the books say, unless the run's is shut.
fn compare_books<B: Book + Drop>(
    alloc: Global,
    host: &mut Host<B>,
    scene: &Scene,
    run: &ServedRun,
) -> Result<(), Difference> {
    let Some(texts) = &run.texts else {
        return Ok(());
    };
    match book_texts(alloc, host, scene.scripts.as_slice()) {
        Some(plain) if plain.as_slice() == texts.as_slice() => Ok(()),
        Some(_) => Err(Difference::Books),
        None => Err(Difference::NoMemory),
    }
}

/// What a run did, in so many groups.
fn tried_in(run: &ServedRun, groups: u64) -> Tried {
    let noted = run.gate.noted();
    let messages = noted.iter().filter(|next| matches!(next, Noted::Taken(_)));
    let answers = noted
        .iter()
        .filter(|next| matches!(next, Noted::Answered(_)));
    let (messages, answers) = (messages.count() as u64, answers.count() as u64);
    Tried {
        connections: run.gate.parted().len() as u64,
        acts: messages.wrapping_add(answers),
        answers,
        groups,
        stopped: u64::from(run.is_stopped),
    }
}
