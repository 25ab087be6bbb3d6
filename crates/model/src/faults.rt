//! Why a call is refused, layer in layer.
ghost use Rattle.std.specs.Prelude.{◌≡◌};
ghost use Rattle.model.specs.declared.faults.MachineFault.TheVariants.{Memory};

use crate::places::{Place, ScheduleLine};

/// The part of the program that refuses.
#[derive(Clone, Copy, Debug, PartialEq, Eq)]
pub enum Layer {
    Table,
    Translation,
    Machine,
    Memory,
    Console,
}

/// A refusal as it is reported: its number, its place and its layer, as makers have them in their lists.
#[derive(Clone, Copy, Debug, PartialEq, Eq)]
pub struct Refusal {
    pub number: u8,
    pub place: usize,
    pub layer: Layer,
}

/// Which of the tables that a call takes.
#[derive(Clone, Copy, Debug, PartialEq, Eq)]
pub enum Given {
    First,
    Second,
}

/// Why a table is refused; `at` is a byte of the table, counted from 0, and `length` its length in bytes.
#[derive(Clone, Copy, Debug, PartialEq, Eq)]
pub enum TableFault {
    Length { length: usize },
    Header { at: usize },
    Entry { at: usize },
    Op { at: usize },
    Operand { at: usize },
    WrongKind { table: Given },
}

/// Why a memory refuses a call.
#[derive(Clone, Copy, Debug, PartialEq, Eq)]
pub enum MemoryFault {
    NoThread { thread: u8 },
    NoWord { word: u8 },
    Full { thread: u8 },
    Empty { thread: u8 },
}

/// Why a machine refuses a step or a line.
#[derive(Clone, Copy, Debug, PartialEq, Eq)]
pub enum MachineFault {
    NoThread { thread: u8 },
    Ended { place: Place },
    NoWay { place: Place },
    NotGranted { place: Place },
    Memory { fault: MemoryFault },
}

/// Why a list of steps is refused; `index` counts the list's bytes from 0.
#[derive(Clone, Copy, Debug, PartialEq, Eq)]
pub enum StepsFault {
    Byte { index: usize },
    Step { index: usize, fault: MachineFault },
}

/// Why a line of a schedule is refused: its byte is no line, or the machine refuses it.
#[derive(Clone, Copy, Debug, PartialEq, Eq)]
pub enum LineFault {
    Byte,
    Machine { fault: MachineFault },
}

/// A refused line, with its number.
#[derive(Clone, Copy, Debug, PartialEq, Eq)]
pub struct AtLine {
    pub line: ScheduleLine,
    pub fault: LineFault,
}

/// Why a replay is refused.
#[derive(Clone, Copy, Debug, PartialEq, Eq)]
pub enum ReplayFault {
    Table { fault: TableFault },
    Goal { length: usize },
    Line { at: AtLine },
}

/// Why a translation is refused.
#[derive(Clone, Copy, Debug, PartialEq, Eq)]
pub enum TranslateFault {
    Table { fault: TableFault },
    Rounds { rounds: u8 },
    Short { needed: usize },
}

/// Why the schedule of a list of steps is refused.
#[derive(Clone, Copy, Debug, PartialEq, Eq)]
pub enum ScheduleFault {
    Table { fault: TableFault },
    Differs { at: usize },
    Steps { fault: StepsFault },
    SectionOpen { length: usize },
    Short { needed: usize },
}

impl From<MemoryFault> for MachineFault {
    ghost from_gives = { λ f m. m ≡ Memory f };

    fn from(fault: MemoryFault) -> MachineFault {
        MachineFault::Memory { fault }
    }
}
