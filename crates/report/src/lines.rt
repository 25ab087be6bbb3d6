//! The lines that are printed of a table, each by its parts. Each `Display` is written out, since a derived one promises
//! nothing of its text.
ghost use Rattle.report.specs.Text.{field_text, entry_text, listed_text, accepted_text};
ghost use Rattle.std.specs.Prelude.{Some};

use model::code::{Instruction, Kind};
use std::fmt;

/// A field of the header: its byte, its name, what it holds and what that means.
#[derive(Clone, Copy, PartialEq, Eq)]
pub struct Field {
    pub at: u8,
    pub name: &'static str,
    pub value: u8,
    pub meaning: &'static str,
}

/// A thread's entry: the byte where it stands, where the thread's code begins, how many instructions it has.
#[derive(Clone, Copy, PartialEq, Eq)]
pub struct Entry {
    pub at: usize,
    pub thread: u8,
    pub position: u16,
    pub count: u16,
}

/// An instruction, with the byte where it stands, its thread and its place in the thread's code.
#[derive(Clone, Copy, PartialEq, Eq)]
pub struct Listed {
    pub at: usize,
    pub thread: u8,
    pub place: u16,
    pub instruction: Instruction,
}

/// The verdict on a table that was read.
#[derive(Clone, Copy, PartialEq, Eq)]
pub struct Accepted {
    pub kind: Kind,
}

impl fmt::Display for Field {
    ghost output = { λ x. Some (field_text x) };

    fn fmt<W: fmt::Write>(&self, f: &mut fmt::Formatter<W>) -> fmt::Result {
        write!(
            f,
            "byte {}, {}: {} ({})",
            self.at, self.name, self.value, self.meaning
        )
    }
}

impl fmt::Display for Entry {
    ghost output = { λ x. Some (entry_text x) };

    fn fmt<W: fmt::Write>(&self, f: &mut fmt::Formatter<W>) -> fmt::Result {
        write!(
            f,
            "byte {}, thread {}: code at byte {}, instruction count {}",
            self.at, self.thread, self.position, self.count
        )
    }
}

impl fmt::Display for Listed {
    ghost output = { λ x. Some (listed_text x) };

    fn fmt<W: fmt::Write>(&self, f: &mut fmt::Formatter<W>) -> fmt::Result {
        write!(
            f,
            "byte {}, thread {}, place {}: {}",
            self.at, self.thread, self.place, self.instruction
        )
    }
}

impl fmt::Display for Accepted {
    ghost output = { λ x. Some (accepted_text x) };

    fn fmt<W: fmt::Write>(&self, f: &mut fmt::Formatter<W>) -> fmt::Result {
        write!(
            f,
            "accepted: every byte of this {} table is in its range",
            self.kind
        )
    }
}
