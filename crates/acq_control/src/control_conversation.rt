//! One end of a control connection, without its reads and writes.

ghost use Rattle.std.specs.Prelude.{◌≡◌, ◌+◌, ◌<◌, ◌≤◌, ℕ, [], length, drop, None, Ok, OnErr, OnOk};
ghost use Rattle.std.specs.Prelude.{false, true};
ghost use Rattle.acq_front.specs.Stops.{left_of};
ghost use Rattle.acq_control.specs.Doing.{TellsStore};
ghost use Rattle.acq_control.specs.Lines.{IsInLine, longest_line};
ghost use Rattle.acq_control.specs.Held.{HoldsMore, front_of, is_nothing, nothing};
ghost use Rattle.acq_control.specs.Questions.{wish_of};
ghost use Rattle.acq_control.specs.declared.control_turn.ControlTurn.TheVariants.{Waits};

use crate::answering::answer_to;
use crate::control_input::ControlInput;
use crate::control_turn::ControlTurn;
use crate::preparing::prepared_in_front;
use crate::question::Question;
use crate::reading::question_in;
use crate::unmade_answer::UnmadeAnswer;
use crate::wish::Wish;
use acq_book::{Book, BookFault};
use acq_front::Clock;
use acq_host::Host;
use acq_link::MemorySink;
use acq_status::Serving;
use std::alloc::Global;

/// One end of a control connection: what came and belongs to no line yet, and what of an answer is
/// still to be written, or to be made. It takes memory for one line and what is said to it, of a
/// clearing file for a slice; of a line that is too long it keeps no more than that, and takes it
/// where it ends.
#[derive(Drop)]
pub struct ControlConversation {
    input: ControlInput,
    /// What of the answer was made last.
    answer: MemorySink,
    /// How many bytes of that were written.
    gone: usize,
    /// How many bytes of the answer were written in front of that.
    gone_before: u64,
    /// What of the answer is still to be made.
    unmade: Option<UnmadeAnswer>,
    /// How many lines were taken.
    taken: u64,
    ghost within: { gone ≤ length answer.bytes.items },
}

impl ControlConversation {
    ghost use Rattle.acq_control.specs.Ends.{Steps, end_of, gone_of, held_of, taken_of};
    ghost use Rattle.acq_control.specs.Ends.{Begins, MakesSlice, RefusesLine, unmade_of, unsent_of};
    ghost use Rattle.acq_control.specs.Unmade.{is_said};

    /// Nothing came yet, and nothing is to be written.
    pub fn new(alloc: Global) -> ControlConversation
        ensures held { held_of result ≡ nothing }
        ensures unsent { unsent_of result ≡ [] }
        ensures unmade { unmade_of result ≡ None }
        ensures taken { taken_of result ≡ 0 }
    {
        ControlConversation {
            input: ControlInput::new(),
            answer: MemorySink::new(alloc),
            gone: 0,
            gone_before: 0,
            unmade: None,
            taken: 0,
        }
    }

    /// How many bytes it has room for: some, where no line is whole.
    pub fn room(&self) -> usize
        ensures room { result + length (held_of self.now).kept ≡ longest_line }
        ensures some { IsInLine (held_of self.now).kept → 0 < result }
    {
        self.input.room()
    }

    /// Takes in the next piece of what comes.
    pub fn feed(&mut self, piece: &[u8])
        requires { length (held_of self.old).kept + length piece.now ≤ longest_line }
        ensures held { HoldsMore (held_of self.old) (held_of self.new) piece.now }
        ensures unsent { unsent_of self.new ≡ unsent_of self.old }
        ensures unmade { unmade_of self.new ≡ unmade_of self.old }
        ensures taken { taken_of self.new ≡ taken_of self.old }
    {
        self.input.feed(piece);
    }

    /// What it keeps of the line that is taken next, from its beginning on: nothing where that was
    /// dropped, since the line is too long.
    pub fn front(&self) -> &[u8]
        ensures { result.now ≡ front_of (held_of self.now) }
    {
        self.input.front()
    }

    /// Whether it holds nothing that belongs to no line yet.
    pub fn is_between_lines(&self) -> bool
        ensures { result ≡ is_nothing (held_of self.now) }
    {
        self.input.is_nothing()
    }

    /// How many lines were taken.
    pub fn taken(&self) -> u64
        ensures { result ≡ taken_of self.now }
    {
        self.taken
    }

    /// What is to be written before the next slice is made, or the next turn.
    pub fn unsent(&self) -> &[u8]
        ensures { result.now ≡ unsent_of self.now }
    {
        &self.answer.as_bytes()[self.gone..]
    }

    /// How many bytes of it were written.
    pub fn gone(&self) -> usize
        ensures { result ≡ gone_of self.now }
    {
        self.gone
    }

    /// How many bytes of the answer were written, with those in front of it.
    pub fn gone_of_all(&self) -> u64 {
        self.gone_before.saturating_add(self.gone as u64)
    }

    /// Whether whatever was begun to be said is made.
    pub fn is_said(&self) -> bool
        ensures { result ≡ is_said (unmade_of self.now) }
    {
        match &self.unmade {
            Some(UnmadeAnswer::Clearing(_)) => false,
            _ => true,
        }
    }

    /// Whether a slice is to be made before the next turn.
    pub fn is_making(&self) -> bool
        ensures { result ≡ false → is_said (unmade_of self.now) ≡ true }
    {
        match &self.unmade {
            Some(unmade) => unmade.goes_on(),
            None => false,
        }
    }

    /// So many bytes of it were written.
    pub fn advance(&mut self, n: usize)
        requires { n ≤ length (unsent_of self.old) }
        ensures held { held_of self.new ≡ held_of self.old }
        ensures unsent { unsent_of self.new ≡ drop n (unsent_of self.old) }
        ensures unmade { unmade_of self.new ≡ unmade_of self.old }
        ensures taken { taken_of self.new ≡ taken_of self.old }
    {
        self.gone += n;
    }

    /// Makes a slice of what is still to be made of an answer, if something is; it is then to be
    /// written.
    pub fn make_slice<B: Book + Drop>(
        &mut self,
        alloc: Global,
        host: &mut Host<B>,
    ) -> Result<(), BookFault>
        requires { unsent_of self.old ≡ [] }
        ensures makes { B.is_honest host.new → B.is_open host.old → OnOk result
            (MakesSlice (B.tables host.old) (left_of B.Book host.new)
            (end_of self.old) (end_of self.new)) }
        // Where memory or the store refused a call, nothing is made,
        ensures silent { OnErr result (end_of self.new ≡ end_of self.old) }
        // and nothing was taken.
        ensures refused { B.is_honest host.new → B.is_open host.old → OnErr result
            (RefusesLine (B.tables host.old) (left_of B.Book host.new)) }
        ensures was_honest { B.is_honest host.new → B.is_honest host.old }
        ensures stays_open { B.is_honest host.new → B.is_open host.old
            → OnOk result (B.is_open host.new) }
        ensures store { TellsStore B.Book host.old host.new result }
    {
        let said = match &self.unmade {
            Some(unmade) => unmade.go_on(alloc, host)?,
            None => return Ok(()),
        };
        self.gone_before = self.gone_of_all();
        self.gone = 0;
        self.answer = said.text;
        self.unmade = said.unmade;
        Ok(())
    }

    /// Has the host do what the next line asks, if one is whole, while so much is served; what is
    /// said to it is then to be written. Where rows are to be gone over for it, they are first.
    pub fn turn<B: Book + Drop, C: Clock>(
        &mut self,
        alloc: Global,
        host: &mut Host<B>,
        clock: &mut C,
        serving: Serving,
    ) -> Result<ControlTurn, BookFault>
        requires written { unsent_of self.old ≡ [] }
        requires made { is_said (unmade_of self.old) ≡ true }
        ensures steps { B.is_honest host.new → B.is_open host.old
            → Steps (C.may_give clock.old) serving (B.tables host.old) (left_of B.Book host.new)
            (end_of self.old) (end_of self.new) result }
        // It waits where no line is whole, and is then as it was.
        ensures waits { result ≡ Ok Waits
            → IsInLine (held_of self.old).kept × (end_of self.new ≡ end_of self.old) }
        // Where memory or the store refused a call, nothing is said.
        ensures silent { OnErr result ((unsent_of self.new ≡ unsent_of self.old)
            × (unmade_of self.new ≡ unmade_of self.old)
            × (taken_of self.new ≡ taken_of self.old)) }
        ensures was_honest { B.is_honest host.new → B.is_honest host.old }
        ensures stays_open { B.is_honest host.new → B.is_open host.old
            → OnOk result (B.is_open host.new) }
        ensures given_later { (m : ℕ) → C.may_give clock.new m → C.may_give clock.old m }
        ensures store { TellsStore B.Book host.old host.new result }
    {
        if self.prepare(alloc) {
            return Ok(ControlTurn::Prepares);
        }
        let Some(line) = self.input.take_line(alloc)? else {
            return Ok(ControlTurn::Waits);
        };
        let Some(number) = self.taken.checked_add(1) else {
            return Err(BookFault::Memory);
        };
        let asked = question_in(alloc, &line, clock.now(), serving)?;
        let wish = wish_of(&asked);
        let said = answer_to(alloc, host, number, asked, &self.unmade)?;
        self.taken = number;
        self.gone = 0;
        self.gone_before = 0;
        self.answer = said.text;
        self.unmade = said.unmade;
        Ok(ControlTurn::Took(wish))
    }

    /// Begins to go over rows for the line in front, if it asks for such and none were begun with;
    /// returns whether it did.
    fn prepare(&mut self, alloc: Global) -> bool
        requires made { is_said (unmade_of self.old) ≡ true }
        ensures begins { result ≡ true → Begins (end_of self.old) (end_of self.new) }
        ensures same { result ≡ false → end_of self.new ≡ end_of self.old }
    {
        if self.unmade.is_some() {
            return false;
        }
        match prepared_in_front(alloc, self.input.front()) {
            Some(unmade) => {
                self.unmade = Some(unmade);
                true
            }
            None => false,
        }
    }
}

/// What a line asks of those who serve the connection.
fn wish_of(asked: &Option<Question>) -> Wish
    ensures { result ≡ wish_of asked.now }
{
    match asked {
        Some(Question::Stop) => Wish::Stop,
        Some(Question::Reopen) => Wish::Reopen,
        _ => Wish::Nothing,
    }
}
