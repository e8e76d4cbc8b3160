//! Frames in, reply frames out, once.

ghost use Rattle.std.specs.Prelude.{◌≡◌, ◌+◌, OnOk};
ghost use Rattle.acq_core.specs.Pasts.{HasPast};
ghost use Rattle.acq_serving.specs.Serving.{FrameCame};
ghost use Rattle.acq_front.specs.Stops.{left_of};
ghost use Rattle.acq_link.specs.Moves.{TakesAll};
ghost use Rattle.acq_faults.specs.Faults.{TellsStore, failed_reads, failed_writes};
ghost use Rattle.acq_commands.specs.Once.{ServesInMemory, ServesOnce};

use crate::book_commands::end_of;
use crate::new_list_book::new_list_book;
use crate::widest_opening::{first_day_of_all, greatest_limit};
use acq_book::Book;
use acq_faults::Fault;
use acq_front::{Clock, Issuer};
use acq_host::Host;
use acq_link::{Sink, Source};
use acq_serving::serve;
use std::alloc::Global;
use std::hash::RandomState;

/// Serves the input as one connection over a book, and gives it back with how that ended: each
/// message is taken as soon as its frame is whole, the issuer is asked in between, and its reply is
/// out before more is read.
pub fn once_on<B: Book + Drop, C: Clock, I: Issuer, S: Source, K: Sink>(
    alloc: Global,
    book: B,
    clock: &mut C,
    issuer: &mut I,
    input: &mut S,
    output: &mut K,
) -> (B, Result<(), Fault>)
    requires past { B.is_open book → HasPast (B.tables book) }
    // How what came was served, over the book that is left.
    ensures served { B.is_honest result.0 → B.is_open book
        → ServesOnce (C.may_give clock.old) (I.may_say issuer.old) (B.tables book)
        (left_of B.Book result.0)
        (record { before = S.received input.old; after = S.received input.new })
        (record { before = K.sent output.old; after = K.sent output.new }) result.1 }
    // Where all is well, the whole input was read.
    ensures whole { OnOk result.1
        (TakesAll (S.remaining input.old) (S.received input.old) (S.received input.new)) }
    // A fault of reading or writing comes only where a read or a write failed.
    ensures reads { S.failures input.new ≡ S.failures input.old + failed_reads result.1 }
    ensures writes { K.failures output.new ≡ K.failures output.old + failed_writes result.1 }
    // The store's fault comes only where a call of it failed, or gave for a message that came what
    // no host wrote; and with any other end none failed.
    ensures store { TellsStore result.1 (B.failures book) (B.failures result.0)
        (FrameCame (S.received input.old) (S.received input.new)
        × (B.is_honest result.0 → B.is_open book → ⊥)) }
{
    let mut host = Host::new(alloc, book);
    let ended = match serve(alloc, &mut host, input, output, clock, issuer) {
        Ok(()) => Ok(()),
        Err(fault) => Err(Fault::from(fault)),
    };
    (host.into_book(), ended)
}

/// Serves the input as one connection over a new book in memory, where nobody is enrolled. The
/// book's rows are found by hash, under these keys.
pub fn once_in_memory<C: Clock, I: Issuer, S: Source, K: Sink>(
    alloc: Global,
    keys: RandomState,
    clock: &mut C,
    issuer: &mut I,
    input: &mut S,
    output: &mut K,
) -> Result<(), Fault>
    ensures served { ServesInMemory (C.may_give clock.old) (I.may_say issuer.old)
        (record { before = S.received input.old; after = S.received input.new })
        (record { before = K.sent output.old; after = K.sent output.new }) result }
    ensures whole { OnOk result
        (TakesAll (S.remaining input.old) (S.received input.old) (S.received input.new)) }
    ensures reads { S.failures input.new ≡ S.failures input.old + failed_reads result }
    ensures writes { K.failures output.new ≡ K.failures output.old + failed_writes result }
{
    let book = new_list_book(alloc, keys, greatest_limit(), first_day_of_all());
    let ran = once_on(alloc, book, clock, issuer, input, output);
    end_of(ran)
}
