//! Rounds over connections.

ghost use Rattle.std.specs.Prelude.{◌≡◌, ◌≤◌, ◌+◌, ◌++◌, ℕ, List, [], map, length, reverse};
ghost use Rattle.std.specs.Prelude.{◌<◌, ◌∷◌, IfOk, OnErr, OnOk, vec_capacity, vec_len};
ghost use Rattle.acq_front.specs.Stops.{left_of};
ghost use Rattle.acq_rounds.specs.Acts.{Act, Connection, Serves};
ghost use Rattle.acq_rounds.specs.Groups.{asked, handed};
ghost use Rattle.acq_rounds.specs.Moves.{AllGoOn, Turned};
ghost use Rattle.acq_rounds.specs.Places.{AreQuiet, asleep_in, boxed, count_of, seen, seen_in};
ghost use Rattle.acq_rounds.specs.Runs.{Begins, IsLast, RanOn, RanUntil, whole};
ghost use Rattle.acq_rounds.specs.Said.{told_by_all, turns_in};
ghost use Rattle.acq_rounds.specs.Taking.{OfMemory, TellsFault, TookGroup, TookNone};

use crate::gate::Gate;
use crate::place::Place;
use crate::said::Said;
use crate::taking::take_together;
use crate::talk::Talk;
use crate::turn::Turn;
use acq_book::{Book, BookFault};
use acq_core::{Query, Verdict};
use acq_front::{Clock, Issuer, Line};
use acq_host::Host;
use std::alloc::Global;

/// Connections that are served at once.
#[derive(Drop)]
pub struct Rounds<L, T> {
    alloc: Global,
    /// The connections whose lines may have something to do, as far as it is known.
    awake: Vec<Box<Place<L, T>>>,
    /// The others, in the order of their numbers: a round goes over those that are awake alone.
    asleep: Vec<Box<Place<L, T>>>,
    /// How many connections were had, and so the number of the next one.
    count: u64,
}

impl<L: Line + Drop, T: Talk + Drop> Rounds<L, T> {
    /// No connection.
    pub fn new(alloc: Global) -> Rounds<L, T>
        ensures here { seen_in L.Line T.Talk result ≡ [] }
        ensures quiet { AreQuiet (asleep_in L.Line T.Talk result) }
        ensures count { count_of L.Line T.Talk result ≡ 0 }
    {
        Rounds {
            alloc,
            awake: Vec::new(alloc),
            asleep: Vec::new(alloc),
            count: 0,
        }
    }

    /// Whether a connection has something to do before its line is waited for.
    fn is_awake(&self) -> bool {
        !self.awake.is_empty()
    }

    /// Wakes the connections whose lines have something to do.
    fn wake_all<G: Gate<L, T>>(&mut self, gate: &mut G) -> Result<(), BookFault>
        ensures turned { Turned (seen_in L.Line T.Talk self.old) (seen_in L.Line T.Talk self.new) }
        ensures quiet { AreQuiet (asleep_in L.Line T.Talk self.old)
            → AreQuiet (asleep_in L.Line T.Talk self.new) }
        ensures count { count_of L.Line T.Talk self.new ≡ count_of L.Line T.Talk self.old }
        ensures given { G.given gate.new ≡ G.given gate.old }
        ensures others { G.others gate.new ≡ G.others gate.old }
        ensures ended { G.ended gate.new ≡ G.ended gate.old }
        ensures fault { OfMemory result }
    {
        // One that ended may be among them, but none stands there twice.
        for _ in 0..self.count {
            let Some(number) = gate.woken() else {
                return Ok(());
            };
            wake(&mut self.awake, &mut self.asleep, number)?;
        }
        Ok(())
    }

    /// Takes in the next connection, if one came.
    fn admit<G: Gate<L, T>>(&mut self, gate: &mut G) -> Result<(), BookFault>
        ensures serves { (acts : List Act) → Serves acts (G.ended gate.old)
            (seen_in L.Line T.Talk self.old) (count_of L.Line T.Talk self.old)
            → Serves acts (G.ended gate.new)
            (seen_in L.Line T.Talk self.new) (count_of L.Line T.Talk self.new) }
        // Each connection that the gate gave has a number.
        ensures given { count_of L.Line T.Talk self.new + G.given gate.old
            ≡ count_of L.Line T.Talk self.old + G.given gate.new }
        ensures others { G.others gate.new ≡ G.others gate.old }
        ensures gone { Begins (G.ended gate.old) (G.ended gate.new) }
        ensures quiet { AreQuiet (asleep_in L.Line T.Talk self.old)
            → AreQuiet (asleep_in L.Line T.Talk self.new) }
        ensures fault { OfMemory result }
    {
        if self.count == u64::MAX {
            return Ok(());
        }
        self.awake.reserve(1)?;
        let Some((line, talk)) = gate.next() else {
            return Ok(());
        };
        let place = Place::new(self.count, line, talk);
        self.count += 1;
        match Box::new(self.alloc, place) {
            Ok(place) => {
                self.awake.push(place).unwrap();
                Ok(())
            }
            Err(failed) => {
                gate.part(failed.value);
                Err(BookFault::Memory)
            }
        }
    }

    /// One round: each connection reads, the host takes the turn of each that has one ready, in one
    /// group, and only then is anything written.
    pub fn round<B: Book + Drop, C: Clock, I: Issuer, G: Gate<L, T>>(
        &mut self,
        host: &mut Host<B>,
        clock: &mut C,
        issuer: &mut I,
        gate: &mut G,
    ) -> Result<(), BookFault>
        requires quiet { AreQuiet (asleep_in L.Line T.Talk self.old) }
        ensures still_quiet { AreQuiet (asleep_in L.Line T.Talk self.new) }
        ensures ran { B.is_honest host.new → B.is_open host.old → OnOk result
            (RanOn (C.may_give clock.old) (I.may_say issuer.old) G.follow
            (whole (G.ended gate.old) (seen_in L.Line T.Talk self.old)
            (count_of L.Line T.Talk self.old) (B.tables host.old) (G.others gate.old))
            (G.ended gate.new) (seen_in L.Line T.Talk self.new)
            (count_of L.Line T.Talk self.new) (left_of B.Book host.new) (G.others gate.new)
            (λ n. n ≡ 1)) }
        // Where memory or the store refused something.
        ensures stopped { B.is_honest host.new → B.is_open host.old → OnErr result
            (RanUntil (C.may_give clock.old) (I.may_say issuer.old) G.follow
            (whole (G.ended gate.old) (seen_in L.Line T.Talk self.old)
            (count_of L.Line T.Talk self.old) (B.tables host.old) (G.others gate.old))
            (G.ended gate.new) (seen_in L.Line T.Talk self.new)
            (count_of L.Line T.Talk self.new) (left_of B.Book host.new) (G.others gate.new)) }
        // Each connection that the gate gave has a number.
        ensures given { count_of L.Line T.Talk self.new + G.given gate.old
            ≡ count_of L.Line T.Talk self.old + G.given gate.new }
        ensures was_honest { B.is_honest host.new → B.is_honest host.old }
        ensures stays_open { B.is_honest host.new → B.is_open host.old
            → OnOk result (B.is_open host.new) }
        ensures said_later { (q : Query) (v : Verdict) → I.may_say issuer.new q v
            → I.may_say issuer.old q v }
        ensures given_later { (m : ℕ) → C.may_give clock.new m → C.may_give clock.old m }
        // The store's fault comes only where a call of it failed, or gave what no host wrote; and
        // with any other end none failed.
        ensures store { TellsFault result (B.failures host.old) (B.failures host.new)
            (B.is_honest host.new → B.is_open host.old → ⊥) }
    {
        self.take_in(gate, issuer)?;
        let awake = self.awake.as_mut_slice();
        take_group(self.alloc, awake, host, clock, issuer, gate)?;
        self.send_out(gate);
        Ok(())
    }

    /// What is done in a round before its group: connections wake, come, end and read.
    fn take_in<I: Issuer, G: Gate<L, T>>(
        &mut self,
        gate: &mut G,
        issuer: &mut I,
    ) -> Result<(), BookFault>
        ensures serves { (acts : List Act) → Serves acts (G.ended gate.old)
            (seen_in L.Line T.Talk self.old) (count_of L.Line T.Talk self.old)
            → Serves acts (G.ended gate.new)
            (seen_in L.Line T.Talk self.new) (count_of L.Line T.Talk self.new) }
        ensures quiet { AreQuiet (asleep_in L.Line T.Talk self.old)
            → AreQuiet (asleep_in L.Line T.Talk self.new) }
        ensures given { count_of L.Line T.Talk self.new + G.given gate.old
            ≡ count_of L.Line T.Talk self.old + G.given gate.new }
        ensures others { G.others gate.new ≡ G.others gate.old }
        ensures gone { Begins (G.ended gate.old) (G.ended gate.new) }
        ensures said_later { (q : Query) (v : Verdict) → I.may_say issuer.new q v
            → I.may_say issuer.old q v }
        ensures fault { OfMemory result }
    {
        self.wake_all(gate)?;
        self.hear(issuer)?;
        self.admit(gate)?;
        self.look(gate);
        read_all(self.awake.as_mut_slice());
        clear(&mut self.awake, gate);
        Ok(())
    }

    /// Wakes the connections whose issuers' answers are there now.
    fn hear<I: Issuer>(&mut self, issuer: &mut I) -> Result<(), BookFault>
        ensures turned { Turned (seen_in L.Line T.Talk self.old) (seen_in L.Line T.Talk self.new) }
        ensures quiet { AreQuiet (asleep_in L.Line T.Talk self.old)
            → AreQuiet (asleep_in L.Line T.Talk self.new) }
        ensures count { count_of L.Line T.Talk self.new ≡ count_of L.Line T.Talk self.old }
        ensures said_later { (q : Query) (v : Verdict) → I.may_say issuer.new q v
            → I.may_say issuer.old q v }
        ensures fault { OfMemory result }
    {
        match issuer.next_answer_within() {
            Some(within) if within.is_zero() => {
                wake_answered(&mut self.awake, &mut self.asleep, issuer)
            }
            _ => Ok(()),
        }
    }

    /// What is done behind its group: connections write, end and fall asleep.
    fn send_out<G: Gate<L, T>>(&mut self, gate: &mut G)
        ensures serves { (acts : List Act) (count : ℕ)
            → Serves acts (G.ended gate.old) (seen_in L.Line T.Talk self.old) count
            → Serves acts (G.ended gate.new) (seen_in L.Line T.Talk self.new) count }
        ensures quiet { AreQuiet (asleep_in L.Line T.Talk self.old)
            → AreQuiet (asleep_in L.Line T.Talk self.new) }
        ensures count { count_of L.Line T.Talk self.new ≡ count_of L.Line T.Talk self.old }
        ensures given { G.given gate.new ≡ G.given gate.old }
        ensures others { G.others gate.new ≡ G.others gate.old }
        ensures gone { Begins (G.ended gate.old) (G.ended gate.new) }
    {
        write_all(self.awake.as_mut_slice());
        clear(&mut self.awake, gate);
        put_to_sleep(&mut self.awake, &mut self.asleep);
    }

    /// Ends the connections that are to end now, where the gate looks at them.
    fn look<G: Gate<L, T>>(&mut self, gate: &mut G)
        ensures serves { (acts : List Act) (count : ℕ)
            → Serves acts (G.ended gate.old) (seen_in L.Line T.Talk self.old) count
            → Serves acts (G.ended gate.new) (seen_in L.Line T.Talk self.new) count }
        ensures quiet { AreQuiet (asleep_in L.Line T.Talk self.old)
            → AreQuiet (asleep_in L.Line T.Talk self.new) }
        ensures count { count_of L.Line T.Talk self.new ≡ count_of L.Line T.Talk self.old }
        ensures given { G.given gate.new ≡ G.given gate.old }
        ensures others { G.others gate.new ≡ G.others gate.old }
        ensures gone { Begins (G.ended gate.old) (G.ended gate.new) }
    {
        if gate.looks() {
            look_at(self.awake.as_mut_slice(), gate);
            look_at(self.asleep.as_mut_slice(), gate);
            clear(&mut self.asleep, gate);
        }
    }

    /// Serves so many rounds at most, until the gate says that none is to follow.
    pub fn serve_all<B: Book + Drop, C: Clock, I: Issuer, G: Gate<L, T>>(
        &mut self,
        host: &mut Host<B>,
        clock: &mut C,
        issuer: &mut I,
        gate: &mut G,
        rounds: u64,
    ) -> Result<(), BookFault>
        requires quiet { AreQuiet (asleep_in L.Line T.Talk self.old) }
        ensures ran { B.is_honest host.new → B.is_open host.old → OnOk result
            (RanOn (C.may_give clock.old) (I.may_say issuer.old) G.follow
            (whole (G.ended gate.old) (seen_in L.Line T.Talk self.old)
            (count_of L.Line T.Talk self.old) (B.tables host.old) (G.others gate.old))
            (G.ended gate.new) (seen_in L.Line T.Talk self.new)
            (count_of L.Line T.Talk self.new) (left_of B.Book host.new) (G.others gate.new)
            (IsLast rounds (G.has_stopped gate.new))) }
        // Where memory or the store refused something.
        ensures stopped { B.is_honest host.new → B.is_open host.old → OnErr result
            (RanUntil (C.may_give clock.old) (I.may_say issuer.old) G.follow
            (whole (G.ended gate.old) (seen_in L.Line T.Talk self.old)
            (count_of L.Line T.Talk self.old) (B.tables host.old) (G.others gate.old))
            (G.ended gate.new) (seen_in L.Line T.Talk self.new)
            (count_of L.Line T.Talk self.new) (left_of B.Book host.new) (G.others gate.new)) }
        // Each connection that the gate gave has a number.
        ensures given { count_of L.Line T.Talk self.new + G.given gate.old
            ≡ count_of L.Line T.Talk self.old + G.given gate.new }
        ensures was_honest { B.is_honest host.new → B.is_honest host.old }
        ensures stays_open { B.is_honest host.new → B.is_open host.old
            → OnOk result (B.is_open host.new) }
        ensures said_later { (q : Query) (v : Verdict) → I.may_say issuer.new q v
            → I.may_say issuer.old q v }
        ensures given_later { (m : ℕ) → C.may_give clock.new m → C.may_give clock.old m }
        // The store's fault comes only where a call of it failed, or gave what no host wrote; and
        // with any other end none failed.
        ensures store { TellsFault result (B.failures host.old) (B.failures host.new)
            (B.is_honest host.new → B.is_open host.old → ⊥) }
    {
        for _ in 0..rounds {
            if !gate.wait(self.is_awake(), issuer.next_answer_within()) {
                return Ok(());
            }
            gate.between(self.alloc, host, clock)?;
            self.round(host, clock, issuer, gate)?;
        }
        Ok(())
    }

    /// Parts with all connections, the last one first.
    pub fn part_all<G: Gate<L, T>>(&mut self, gate: &mut G)
        ensures given { G.given gate.new ≡ G.given gate.old }
        ensures others { G.others gate.new ≡ G.others gate.old }
        ensures stopped { G.has_stopped gate.new ≡ G.has_stopped gate.old }
        ensures ended { G.ended gate.new
            ≡ G.ended gate.old ++ reverse (seen_in L.Line T.Talk self.old) }
        ensures serves { (acts : List Act) (count : ℕ)
            → Serves acts (G.ended gate.old) (seen_in L.Line T.Talk self.old) count
            → Serves acts (G.ended gate.new) [] count }
    {
        part_each(&mut self.asleep, gate);
        part_each(&mut self.awake, gate);
    }
}

/// Parts with these connections, the last one first.
fn part_each<L: Line + Drop, T: Talk + Drop, G: Gate<L, T>>(
    places: &mut Vec<Box<Place<L, T>>>,
    gate: &mut G,
)
    ensures given { G.given gate.new ≡ G.given gate.old }
    ensures others { G.others gate.new ≡ G.others gate.old }
    ensures stopped { G.has_stopped gate.new ≡ G.has_stopped gate.old }
    ensures ended { G.ended gate.new
        ≡ G.ended gate.old ++ reverse (map (boxed L.Line T.Talk) places.old.items) }
    ensures serves { (acts : List Act) (front : List Connection) (count : ℕ)
        → Serves acts (G.ended gate.old)
        (front ++ map (boxed L.Line T.Talk) places.old.items) count
        → Serves acts (G.ended gate.new) front count }
{
    while let Some(place) = places.pop() {
        gate.part(Box::into_inner(place));
    }
}

/// Where the connection of this number stands among others in the order of their numbers, or would
/// stand.
fn place_of<L: Line, T: Talk>(places: &[Box<Place<L, T>>], number: u64) -> usize
    ensures { result ≤ length places.now }
{
    let (mut low, mut high) = (0, places.len());
    while low < high {
        let middle = low + (high - low) / 2;
        if places[middle].number() < number {
            low = middle + 1;
        } else {
            high = middle;
        }
    }
    low
}

/// Wakes the connection of this number, if it is asleep.
fn wake<L: Line, T: Talk>(
    awake: &mut Vec<Box<Place<L, T>>>,
    asleep: &mut Vec<Box<Place<L, T>>>,
    number: u64,
) -> Result<(), BookFault>
    ensures turned { Turned
        (map (boxed L.Line T.Talk) awake.old.items ++ map (boxed L.Line T.Talk) asleep.old.items)
        (map (boxed L.Line T.Talk) awake.new.items
        ++ map (boxed L.Line T.Talk) asleep.new.items) }
    ensures quiet { AreQuiet (map (boxed L.Line T.Talk) asleep.old.items)
        → AreQuiet (map (boxed L.Line T.Talk) asleep.new.items) }
    ensures fault { OfMemory result }
{
    let at = place_of(asleep.as_slice(), number);
    if at >= asleep.len() || asleep[at].number() != number {
        return Ok(());
    }
    awake.reserve(1)?;
    let mut place = asleep.remove(at);
    place.wake();
    awake.push(place).unwrap();
    Ok(())
}

/// Wakes those whose issuers' answers are there.
fn wake_answered<L: Line, T: Talk, I: Issuer>(
    awake: &mut Vec<Box<Place<L, T>>>,
    asleep: &mut Vec<Box<Place<L, T>>>,
    issuer: &mut I,
) -> Result<(), BookFault>
    ensures turned { Turned
        (map (boxed L.Line T.Talk) awake.old.items ++ map (boxed L.Line T.Talk) asleep.old.items)
        (map (boxed L.Line T.Talk) awake.new.items
        ++ map (boxed L.Line T.Talk) asleep.new.items) }
    ensures quiet { AreQuiet (map (boxed L.Line T.Talk) asleep.old.items)
        → AreQuiet (map (boxed L.Line T.Talk) asleep.new.items) }
    ensures said_later { (q : Query) (v : Verdict) → I.may_say issuer.new q v
        → I.may_say issuer.old q v }
    ensures fault { OfMemory result }
{
    let mut at = 0;
    while at < asleep.len() {
        awake.reserve(1)?;
        if asleep[at].is_answered(issuer) {
            let mut place = asleep.remove(at);
            place.hear();
            awake.push(place).unwrap();
        } else {
            at += 1;
        }
    }
    Ok(())
}

/// Puts those to sleep that have nothing to do before their lines are waited for.
fn put_to_sleep<L: Line, T: Talk>(
    awake: &mut Vec<Box<Place<L, T>>>,
    asleep: &mut Vec<Box<Place<L, T>>>,
)
    ensures turned { Turned
        (map (boxed L.Line T.Talk) awake.old.items ++ map (boxed L.Line T.Talk) asleep.old.items)
        (map (boxed L.Line T.Talk) awake.new.items
        ++ map (boxed L.Line T.Talk) asleep.new.items) }
    ensures quiet { AreQuiet (map (boxed L.Line T.Talk) asleep.old.items)
        → AreQuiet (map (boxed L.Line T.Talk) asleep.new.items) }
{
    let mut at = 0;
    while at < awake.len() {
        // Where memory is refused they stay awake, and are looked at once more.
        if asleep.reserve(1).is_err() {
            return;
        }
        if awake[at].is_awake() {
            at += 1;
        } else {
            let place = awake.remove(at);
            put_in(asleep, place);
        }
    }
}

/// Puts a connection to its place among others in the order of their numbers.
fn put_in<L: Line, T: Talk>(places: &mut Vec<Box<Place<L, T>>>, place: Box<Place<L, T>>)
    requires room { vec_len places.old < vec_capacity places.old }
    ensures { (before behind : List Connection)
        × (map (boxed L.Line T.Talk) places.old.items ≡ before ++ behind)
        × (map (boxed L.Line T.Talk) places.new.items
        ≡ before ++ (boxed L.Line T.Talk place ∷ behind)) }
{
    let at = place_of(places.as_slice(), place.number());
    places.insert(at, place).unwrap();
}

/// Ends those connections that the gate says are to end.
fn look_at<L: Line, T: Talk, G: Gate<L, T>>(places: &mut [Box<Place<L, T>>], gate: &mut G)
    ensures same { map (boxed L.Line T.Talk) places.new ≡ map (boxed L.Line T.Talk) places.old }
    ensures given { G.given gate.new ≡ G.given gate.old }
    ensures others { G.others gate.new ≡ G.others gate.old }
    ensures ended { G.ended gate.new ≡ G.ended gate.old }
{
    for place in places.iter_mut() {
        let place = &mut **place;
        if let Some(ended) = gate.ends(place) {
            place.end(ended);
        }
    }
}

/// Each connection reads what came.
fn read_all<L: Line, T: Talk>(places: &mut [Box<Place<L, T>>])
    ensures { AllGoOn (map (boxed L.Line T.Talk) places.old)
        (map (boxed L.Line T.Talk) places.new) }
{
    for place in places.iter_mut() {
        let place = &mut **place;
        place.read();
        place.check();
    }
}

/// Each connection writes what can go.
fn write_all<L: Line, T: Talk>(places: &mut [Box<Place<L, T>>])
    ensures { AllGoOn (map (boxed L.Line T.Talk) places.old)
        (map (boxed L.Line T.Talk) places.new) }
{
    for place in places.iter_mut() {
        place.write();
    }
}

/// The turns that are ready.
fn turns_of<L: Line, T: Talk>(
    alloc: Global,
    places: &[Box<Place<L, T>>],
) -> Result<Vec<Turn<'_>>, BookFault>
    ensures turns { IfOk result (λ turns. turns_in turns.items
        ≡ asked (map (boxed L.Line T.Talk) places.now)) }
    ensures fault { OfMemory result }
{
    let mut turns = Vec::new(alloc);
    for place in places {
        if place.is_ready() {
            let Ok(turn) = place.turn(alloc) else {
                return Err(BookFault::Memory);
            };
            if turns.push(turn).is_err() {
                return Err(BookFault::Memory);
            }
        }
    }
    Ok(turns)
}

/// Hands out what was said, each to the next connection that was ready.
fn hand_out<L: Line, T: Talk, G: Gate<L, T>>(
    places: &mut [Box<Place<L, T>>],
    said: Vec<Said>,
    gate: &mut G,
)
    ensures out { map (boxed L.Line T.Talk) places.new
        ≡ handed (map (boxed L.Line T.Talk) places.old) (told_by_all said.items) }
    ensures given { G.given gate.new ≡ G.given gate.old }
    ensures others { G.others gate.new ≡ G.others gate.old }
    ensures ended { G.ended gate.new ≡ G.ended gate.old }
{
    let mut said = said.into_iter();
    for place in places.iter_mut() {
        let place = &mut **place;
        if place.is_ready() {
            let Some(next) = said.next() else {
                return;
            };
            place.hold(next);
            gate.said(place);
        }
    }
}

/// Has the host take the turns that are ready, and hands out what it says.
fn take_group<L: Line, T: Talk, B: Book + Drop, C: Clock, I: Issuer, G: Gate<L, T>>(
    alloc: Global,
    places: &mut [Box<Place<L, T>>],
    host: &mut Host<B>,
    clock: &mut C,
    issuer: &mut I,
    gate: &mut G,
) -> Result<(), BookFault>
    ensures given { G.given gate.new ≡ G.given gate.old }
    ensures others { G.others gate.new ≡ G.others gate.old }
    ensures ended { G.ended gate.new ≡ G.ended gate.old }
    ensures took { B.is_honest host.new → B.is_open host.old → OnOk result
        (TookGroup (C.may_give clock.old) (I.may_say issuer.old) (B.tables host.old)
        (left_of B.Book host.new) (map (boxed L.Line T.Talk) places.old)
        (map (boxed L.Line T.Talk) places.new)) }
    ensures refused { B.is_honest host.new → B.is_open host.old → OnErr result
        (TookNone (C.may_give clock.old) (I.may_say issuer.old) (B.tables host.old)
        (left_of B.Book host.new) (asked (map (boxed L.Line T.Talk) places.old))) }
    ensures kept { OnErr result
        (map (boxed L.Line T.Talk) places.new ≡ map (boxed L.Line T.Talk) places.old) }
    ensures was_honest { B.is_honest host.new → B.is_honest host.old }
    ensures stays_open { B.is_honest host.new → B.is_open host.old
        → OnOk result (B.is_open host.new) }
    ensures said_later { (q : Query) (v : Verdict) → I.may_say issuer.new q v
        → I.may_say issuer.old q v }
    ensures given_later { (m : ℕ) → C.may_give clock.new m → C.may_give clock.old m }
    ensures store { TellsFault result (B.failures host.old) (B.failures host.new)
        (B.is_honest host.new → B.is_open host.old → ⊥) }
{
    let turns = turns_of(alloc, places)?;
    let said = take_together(alloc, turns, host, clock, issuer)?;
    hand_out(places, said, gate);
    Ok(())
}

/// Parts with the connections that ended.
fn clear<L: Line + Drop, T: Talk + Drop, G: Gate<L, T>>(
    places: &mut Vec<Box<Place<L, T>>>,
    gate: &mut G,
)
    ensures given { G.given gate.new ≡ G.given gate.old }
    ensures others { G.others gate.new ≡ G.others gate.old }
    ensures gone { Begins (G.ended gate.old) (G.ended gate.new) }
    ensures serves { (acts : List Act) (front behind : List Connection) (count : ℕ)
        → Serves acts (G.ended gate.old)
        (front ++ (map (boxed L.Line T.Talk) places.old.items ++ behind)) count
        → Serves acts (G.ended gate.new)
        (front ++ (map (boxed L.Line T.Talk) places.new.items ++ behind)) count }
    ensures quiet { AreQuiet (map (boxed L.Line T.Talk) places.old.items)
        → AreQuiet (map (boxed L.Line T.Talk) places.new.items) }
{
    let mut at = 0;
    while at < places.len() {
        if places[at].ended().is_some() {
            let place = places.remove(at);
            gate.part(Box::into_inner(place));
        } else {
            at += 1;
        }
    }
}
