//! A step of a run, as a line. Each `Display` is written out, since a derived one promises nothing of its text.
ghost use Rattle.std.specs.Prelude.{◌≡◌, Some};
ghost use Rattle.passages.specs.Lines.{change_text, stepped_text};
ghost use Rattle.passages.specs.Changes.{change_of};

use model::code::Instruction;
use model::places::Place;
use plain::run::Run;
use std::fmt;

/// What a step changed besides its thread's place.
#[derive(Clone, Copy, PartialEq, Eq)]
pub enum Change {
    Register { register: u8, value: u8 },
    Word { word: u8, value: u8 },
}

/// A granted step: its thread, the place where it was taken, the instruction there and what changed, if anything.
#[derive(Clone, Copy, PartialEq, Eq)]
pub struct Stepped {
    pub thread: u8,
    pub place: Place,
    pub instruction: Instruction,
    pub change: Option<Change>,
}

impl fmt::Display for Change {
    ghost output = { λ c. Some (change_text c) };

    fn fmt<W: fmt::Write>(&self, f: &mut fmt::Formatter<W>) -> fmt::Result {
        match *self {
            Change::Register { register, value } => write!(f, "register {register} is {value}"),
            Change::Word { word, value } => write!(f, "word {word} is {value}"),
        }
    }
}

impl fmt::Display for Stepped {
    ghost output = { λ s. Some (stepped_text s) };

    fn fmt<W: fmt::Write>(&self, f: &mut fmt::Formatter<W>) -> fmt::Result {
        let Stepped {
            thread,
            place,
            instruction,
            change,
        } = *self;
        match change {
            Some(change) => write!(f, "thread {thread}, {place}: {instruction}; {change}"),
            None => write!(
                f,
                "thread {thread}, {place}: {instruction}; only its place changes"
            ),
        }
    }
}

/// What a granted step of a thread's instruction has changed, seen from the run after it; none where only the place changes.
pub fn changed(run: &Run, thread: u8, instruction: Instruction) -> Option<Change>
    ensures { result ≡ change_of run.now thread instruction }
{
    match instruction {
        Instruction::Set { register, .. }
        | Instruction::Move { into: register, .. }
        | Instruction::Add { into: register, .. }
        | Instruction::Inc { register, .. }
        | Instruction::Load { register, .. }
        | Instruction::Open { register, .. } => {
            let value = run.register(thread, register).unwrap_or(0);
            Some(Change::Register { register, value })
        }
        Instruction::Store { word, .. } | Instruction::Arw { word, .. } => {
            let value = run.word(word).unwrap_or(0);
            Some(Change::Word { word, value })
        }
        _ => None,
    }
}
