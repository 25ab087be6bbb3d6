//! The text that is printed for an instruction, a place and a refusal. Each `Display` is written out, since a derived one
//! promises nothing of its text.
ghost use Rattle.model.specs.Text.{given_text, instruction_text, kind_text, layer_text, machine_fault_text, memory_fault_text, place_text, refusal_text, table_fault_text};
ghost use Rattle.std.specs.Prelude.{Some};

use crate::code::{Instruction, Kind};
use crate::faults::{Given, Layer, MachineFault, MemoryFault, Refusal, TableFault};
use crate::places::{Place, SourcePlace, TranslatedPlace};
use std::fmt;

impl fmt::Display for Kind {
    ghost output = { λ k. Some (kind_text k) };

    fn fmt<W: fmt::Write>(&self, f: &mut fmt::Formatter<W>) -> fmt::Result {
        match *self {
            Kind::Source => write!(f, "source"),
            Kind::Translated => write!(f, "translated"),
        }
    }
}

impl fmt::Display for Instruction {
    ghost output = { λ i. Some (instruction_text i) };

    fn fmt<W: fmt::Write>(&self, f: &mut fmt::Formatter<W>) -> fmt::Result {
        match *self {
            Instruction::Set { register, constant } => write!(
                f,
                "SET register {register} to {constant}"
            ),
            Instruction::Move { into, from } => write!(
                f,
                "MOVE register {into} from register {from}"
            ),
            Instruction::Add { into, from } => write!(f, "ADD register {from} to register {into}"),
            Instruction::Inc { register, constant } => write!(
                f,
                "INC register {register} by {constant}"
            ),
            Instruction::Jump { target } => write!(f, "JUMP to {target}"),
            Instruction::IfEq {
                register,
                constant,
                target,
            } => { write!(f, "IFEQ register {register} is {constant}, to {target}") }
            Instruction::IfLt {
                left,
                right,
                target,
            } => {
                write!(
                    f,
                    "IFLT register {left} is below register {right}, to {target}"
                )
            }
            Instruction::Pick { target } => write!(f, "PICK the next place or {target}"),
            Instruction::Wait { left, right } => write!(
                f,
                "WAIT until registers {left} and {right} are equal"
            ),
            Instruction::Load { register, word } => write!(
                f,
                "LOAD register {register} from word {word}"
            ),
            Instruction::Store { word, register } => write!(
                f,
                "STORE word {word} from register {register}"
            ),
            Instruction::Fence => write!(f, "FENCE"),
            Instruction::Arw {
                word,
                expected,
                new,
            } => {
                write!(
                    f,
                    "ARW word {word} from register {expected} to register {new}"
                )
            }
            Instruction::Open { register, limit } => write!(
                f,
                "OPEN a section, register {register} below {limit}"
            ),
            Instruction::Shut { target } => write!(f, "SHUT the section, to {target}"),
            Instruction::Call { target } => write!(f, "CALL {target}"),
            Instruction::Back => write!(f, "BACK"),
        }
    }
}

impl fmt::Display for Layer {
    ghost output = { λ l. Some (layer_text l) };

    fn fmt<W: fmt::Write>(&self, f: &mut fmt::Formatter<W>) -> fmt::Result {
        match *self {
            Layer::Table => write!(f, "table"),
            Layer::Translation => write!(f, "translation"),
            Layer::Machine => write!(f, "machine"),
            Layer::Memory => write!(f, "memory"),
            Layer::Console => write!(f, "console"),
        }
    }
}

impl fmt::Display for Given {
    ghost output = { λ g. Some (given_text g) };

    fn fmt<W: fmt::Write>(&self, f: &mut fmt::Formatter<W>) -> fmt::Result {
        match *self {
            Given::First => write!(f, "first"),
            Given::Second => write!(f, "second"),
        }
    }
}

impl fmt::Display for Refusal {
    ghost output = { λ r. Some (refusal_text r) };

    fn fmt<W: fmt::Write>(&self, f: &mut fmt::Formatter<W>) -> fmt::Result {
        let Refusal {
            number,
            place,
            layer,
        } = *self;
        write!(f, "refused {number} at {place} in {layer}")
    }
}

impl fmt::Display for TableFault {
    ghost output = { λ t. Some (table_fault_text t) };

    fn fmt<W: fmt::Write>(&self, f: &mut fmt::Formatter<W>) -> fmt::Result {
        match *self {
            TableFault::Length { length } => write!(
                f,
                "a table of {length} bytes is not as long as its counts say"
            ),
            TableFault::Header { at } => write!(f, "byte {at} of the header is out of its range"),
            TableFault::Entry { at } => {
                write!(
                    f,
                    "the thread entry at byte {at} has a wrong position or a count out of its range"
                )
            }
            TableFault::Op { at } => write!(
                f,
                "the op at byte {at} is unknown or of the other kind of table"
            ),
            TableFault::Operand { at } => write!(
                f,
                "the operand at byte {at} is out of its range or should be 0"
            ),
            TableFault::WrongKind { table } => write!(f, "the {table} table is of the wrong kind"),
        }
    }
}

impl fmt::Display for Place {
    ghost output = { λ p. Some (place_text p) };

    fn fmt<W: fmt::Write>(&self, f: &mut fmt::Formatter<W>) -> fmt::Result {
        match *self {
            Place::Source(SourcePlace(n)) => write!(f, "source place {n}"),
            Place::Translated(TranslatedPlace(n)) => write!(f, "translated place {n}"),
        }
    }
}

impl fmt::Display for MemoryFault {
    ghost output = { λ m. Some (memory_fault_text m) };

    fn fmt<W: fmt::Write>(&self, f: &mut fmt::Formatter<W>) -> fmt::Result {
        match *self {
            MemoryFault::NoThread { thread } => write!(f, "the memory has no thread {thread}"),
            MemoryFault::NoWord { word } => write!(f, "the memory has no word {word}"),
            MemoryFault::Full { thread } => write!(
                f,
                "no further store of thread {thread} can wait"
            ),
            MemoryFault::Empty { thread } => write!(f, "no store of thread {thread} waits"),
        }
    }
}

impl fmt::Display for MachineFault {
    ghost output = { λ m. Some (machine_fault_text m) };

    fn fmt<W: fmt::Write>(&self, f: &mut fmt::Formatter<W>) -> fmt::Result {
        match *self {
            MachineFault::NoThread { thread } => write!(f, "the table has no thread {thread}"),
            MachineFault::Ended { place } => write!(f, "the thread has ended at {place}"),
            MachineFault::NoWay { place } => write!(f, "there is no such way at {place}"),
            MachineFault::NotGranted { place } => write!(
                f,
                "the step at {place} is not granted now"
            ),
            MachineFault::Memory { fault } => write!(f, "{fault}"),
        }
    }
}
