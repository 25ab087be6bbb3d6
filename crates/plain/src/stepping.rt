//! Beginning a run, and its steps.
ghost use Rattle.std.specs.Prelude.{◌≡◌, IfOk};
ghost use Rattle.model.specs.Plain.{new_run, step as step_by_way, answer_of, run_after};
ghost use Rattle.model.specs.Runs.{byte_step, ran_from};
ghost use Rattle.model.specs.Table.{decode};
ghost use Rattle.table.specs.Said.{said};
ghost use Rattle.plain.specs.Acts.{way_to};
ghost use Rattle.plain.specs.Said.{begun, runs};

use crate::run::Run;
use crate::{action, performing};
use model::code::Instruction;
use model::faults::{MachineFault, StepsFault, TableFault};
use model::numbers::require;
use model::state::{State, Thread, Way};
use table::view::Table;

fn new_state() -> State
    ensures { result ≡ new_run }
{
    let thread = Thread {
        place: 0,
        link: 0,
        registers: [0; 82],
    };
    State {
        words: [0; 8],
        threads: [thread; 4],
        holder: None,
    }
}

/// The way that a number names, if the instruction can go that way: only PICK goes aside.
fn way_to(instruction: Instruction, number: u8) -> Option<Way>
    ensures { result ≡ way_to instruction number }
{
    match (Way::try_from(number), instruction) {
        (Ok(Way::Next), _) => Some(Way::Next),
        (Ok(Way::Aside), Instruction::Pick { .. }) => Some(Way::Aside),
        _ => None,
    }
}

impl<'a> Run<'a> {
    /// A new run of a table.
    pub fn of(table: Table<'a>) -> Run<'a>
        ensures table { runs result ≡ said table.entry }
        ensures state { result.state ≡ new_run }
    {
        let state = new_state();
        Run { table, state }
    }

    /// A new run of the table that the bytes are, or their first fault.
    pub fn new(bytes: &'a [u8]) -> Result<Run<'a>, TableFault>
        ensures table { begun result ≡ decode bytes.now }
        ensures state { IfOk result (λ run. run.state ≡ new_run) }
    {
        let table = Table::read(bytes)?;
        Ok(Run::of(table))
    }

    /// One step of a thread by a way: 0 on to the next place, 1 aside; any other number is refused, so it is no `Way` yet.
    pub fn step(&mut self, thread: u8, way: u8) -> Result<(), MachineFault>
        ensures answer { result ≡ answer_of (step_by_way (runs self.old) self.old.state thread way) }
        ensures after { self.new.state ≡ run_after self.old.state (step_by_way (runs self.old) self.old.state thread way) }
        ensures table { runs self.new ≡ runs self.old }
    {
        let table = self.table;
        let holder = self.state.holder;
        let Some(own) = self.thread(thread) else {
            return Err(MachineFault::NoThread { thread });
        };
        let place = table.place(own.place);
        let instruction = table
            .instruction(thread, own.place)
            .ok_or(MachineFault::Ended { place })?;
        let way = way_to(instruction, way).ok_or(MachineFault::NoWay { place })?;
        let refused = MachineFault::NotGranted { place };
        let free = holder.is_none_or(|holder| holder == thread);
        let action = action::intent(own, free, instruction, way).ok_or(refused)?;
        performing::perform(&mut self.state, thread, action).ok_or(refused)?;
        Ok(())
    }

    /// The step that a byte asks for: thread + 4 × way.
    fn step_byte(&mut self, index: usize, byte: u8) -> Result<(), StepsFault>
        ensures answer { result ≡ answer_of (byte_step (runs self.old) self.old.state index byte) }
        ensures after { self.new.state ≡ run_after self.old.state (byte_step (runs self.old) self.old.state index byte) }
        ensures table { runs self.new ≡ runs self.old }
    {
        require(byte < 8, StepsFault::Byte { index })?;
        self.step(byte % 4, byte / 4)
            .map_err(|fault| StepsFault::Step { index, fault })
    }

    /// Takes the steps of a list one after another, up to the first refusal; what was granted before it stands.
    pub fn steps(&mut self, list: &[u8]) -> Result<(), StepsFault>
        ensures answer { result ≡ (ran_from (runs self.old) self.old.state 0 list.now).answer }
        ensures after { self.new.state ≡ (ran_from (runs self.old) self.old.state 0 list.now).state }
        ensures table { runs self.new ≡ runs self.old }
    {
        for (index, byte) in list.iter().enumerate() {
            self.step_byte(index, *byte)?;
        }
        Ok(())
    }
}
