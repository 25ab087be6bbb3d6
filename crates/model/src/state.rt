//! What the machines hold: threads, runs, stores that wait.
ghost use Rattle.model.specs.Ops.{IsWay};

use crate::numbers::Unknown;

/// Which way a step goes: on to the next place, or to the target of a PICK.
#[derive(Clone, Copy, Debug, PartialEq, Eq)]
pub enum Way {
    Next,
    Aside,
}

impl TryFrom<u8> for Way {
    type Error = Unknown;

    ghost try_from_gives = { IsWay };

    fn try_from(number: u8) -> Result<Way, Unknown> {
        match number {
            0 => Ok(Way::Next),
            1 => Ok(Way::Aside),
            _ => Err(Unknown(number)),
        }
    }
}

/// One thread of a machine: its place, the link of its last CALL, its registers.
#[derive(Clone, Copy, Debug, PartialEq, Eq)]
pub struct Thread {
    pub place: u16,
    pub link: u16,
    pub registers: [u8; 82],
}

/// A run of the plain machine: the words, the threads, and the thread that holds the section; in arrays, so that no run needs
/// the heap.
#[derive(Clone, Copy, Debug, PartialEq, Eq)]
pub struct State {
    pub words: [u8; 8],
    pub threads: [Thread; 4],
    pub holder: Option<u8>,
}

/// A store that waits in a thread's queue.
#[derive(Clone, Copy, Debug, PartialEq, Eq)]
pub struct Store {
    pub word: u8,
    pub value: u8,
}

/// What a line of a schedule asks of its thread: a step by a way, or the drain of its oldest store.
#[derive(Clone, Copy, Debug, PartialEq, Eq)]
pub enum Act {
    Step { way: Way },
    Drain,
}

/// A line of a schedule.
#[derive(Clone, Copy, Debug, PartialEq, Eq)]
pub struct Line {
    pub thread: u8,
    pub act: Act,
}
