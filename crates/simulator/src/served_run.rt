//! Runs at a gate in memory.

ghost use Rattle.acq_core.specs.Pasts.{HasPast};

use crate::counting_clock::CountingClock;
use crate::drawing::draw_scene;
use crate::failing_book::FailingBook;
use crate::opening::opened_host;
use crate::rule_issuer::RuleIssuer;
use crate::scene::Scene;
use crate::texts::book_texts;
use acq_book::Book;
use acq_host::Host;
use acq_memory_lines::{Chance, MemoryGate, MemoryStream};
use acq_rounds::serve;
use std::alloc::Global;
use std::hash::RandomState;
use std::mem;

/// The most rounds of a run.
const ROUNDS: u64 = 2_000_000;

/// A run at a gate in memory.
#[derive(Drop)]
pub struct ServedRun {
    /// What happened at the gate.
    pub gate: MemoryGate,
    /// Whether a fault of the book stopped it.
    pub is_stopped: bool,
    /// Whether the book refused a call.
    pub is_refused: bool,
    /// How many groups the book kept.
    pub kept: u64,
    /// What the book said then, unless the fault shut it.
    pub texts: Option<Vec<u8>>,
}

/// Serves the scene of a seed. `None` where memory runs out.
pub fn serve_seed(alloc: Global, keys: RandomState, seed: u64) -> Option<ServedRun> {
    let mut scene = draw_scene(alloc, seed)?;
    let book = opened_host(alloc, keys)?.into_book();
    let book = FailingBook::new(book, scene.refused);
    serve_scene(alloc, seed, &mut scene, book)
}

/// Serves a scene over this book.
fn serve_scene<B: Book + Drop>(
    alloc: Global,
    seed: u64,
    scene: &mut Scene,
    book: FailingBook<B>,
) -> Option<ServedRun>
    requires { B.is_open book.book → HasPast (B.tables book.book) }
{
    let mut host = Host::new(alloc, book);
    let (gate, is_stopped) = serve_at_gate(alloc, seed, scene, &mut host)?;
    let book = host.into_book();
    let (is_refused, kept, is_shut) = (book.has_refused(), book.kept(), book.is_shut());
    let texts = last_texts(alloc, book.into_book(), scene);
    if texts.is_none() && !is_shut {
        return None;
    }
    Some(ServedRun {
        gate,
        is_stopped,
        is_refused,
        kept,
        texts,
    })
}

/// Serves a scene at a gate, and returns this and whether a fault stopped it.
fn serve_at_gate<B: Book + Drop>(
    alloc: Global,
    seed: u64,
    scene: &mut Scene,
    host: &mut Host<B>,
) -> Option<(MemoryGate, bool)> {
    let coming = streams(alloc, scene, seed)?;
    let events = mem::replace(&mut scene.events, Vec::new(alloc));
    let mut gate = MemoryGate::new(alloc, coming, events, scene.manner, Chance::new(seed, 1));
    let (mut clock, mut issuer) = (CountingClock::new(), RuleIssuer::new(alloc));
    let served = serve(alloc, host, &mut clock, &mut issuer, &mut gate, ROUNDS);
    Some((gate, served.is_err()))
}

/// What a book says behind a run. `None` where memory runs out, and of a book that is shut, since it
/// takes no event.
fn last_texts<B: Book + Drop>(alloc: Global, book: B, scene: &Scene) -> Option<Vec<u8>>
    requires { B.is_open book → HasPast (B.tables book) }
{
    let mut host = Host::new(alloc, book);
    book_texts(alloc, &mut host, scene.scripts.as_slice())
}

/// The streams of a scene's connections, the first to come at the end.
fn streams(alloc: Global, scene: &Scene, seed: u64) -> Option<Vec<MemoryStream>> {
    let mut streams = Vec::new(alloc);
    for (place, script) in scene.scripts.iter().enumerate().rev() {
        let chance = Chance::new(seed, (place as u64).saturating_add(2));
        let coming = script.bytes(alloc)?;
        streams
            .push(MemoryStream::new(alloc, coming, script.habits, chance))
            .ok()?;
    }
    Some(streams)
}
