//! What a run holds.
ghost use Rattle.std.specs.Prelude.{◌≡◌, ◌<◌, OnSome};
ghost use Rattle.std.specs.Option.{option_copied};
ghost use Rattle.table.specs.Said.{said};
ghost use Rattle.plain.specs.Said.{instruction_at_hand, thread_asked, runs, word_at, place_at, link_at, register_at, has_ended};

use crate::run::Run;
use model::code::Instruction;
use model::places::Place;
use model::state::Thread;
use table::view::Table;

impl<'a> Run<'a> {
    /// A thread; none where the table has no such thread.
    pub(crate) fn thread(&self, thread: u8) -> Option<&Thread>
        ensures answer { option_copied result ≡ thread_asked self.now thread }
        ensures few { OnSome result (thread < 4) }
    {
        let count = usize::from(self.table.threads());
        self.state.threads[..count].get(usize::from(thread))
    }

    /// The table that is run.
    pub fn table(&self) -> Table<'a>
        ensures { said result ≡ runs self.now }
    {
        self.table
    }

    /// A word; none where the table has no such word.
    pub fn word(&self, x: u8) -> Option<u8>
        ensures { result ≡ word_at self.now x }
    {
        let words = &self.state.words[..usize::from(self.table.words())];
        words.get(usize::from(x)).copied()
    }

    /// The place of a thread; none where the table has no such thread.
    pub fn place(&self, thread: u8) -> Option<Place>
        ensures { result ≡ place_at self.now thread }
    {
        let own = self.thread(thread)?;
        Some(self.table.place(own.place))
    }

    /// The instruction that a thread is at; none where it has ended, or where the table has no such thread.
    pub fn instruction(&self, thread: u8) -> Option<Instruction>
        ensures { result ≡ instruction_at_hand self.now thread }
    {
        let own = self.thread(thread)?;
        self.table.instruction(thread, own.place)
    }

    /// The place that BACK goes to; none where the table has no such thread.
    pub fn link(&self, thread: u8) -> Option<Place>
        ensures { result ≡ link_at self.now thread }
    {
        let own = self.thread(thread)?;
        Some(self.table.place(own.link))
    }

    /// A register of a thread; none where the table has no such thread or register.
    pub fn register(&self, thread: u8, r: u8) -> Option<u8>
        ensures { result ≡ register_at self.now thread r }
    {
        let own = self.thread(thread)?;
        let registers = &own.registers[..usize::from(self.table.registers())];
        registers.get(usize::from(r)).copied()
    }

    /// The thread that holds the section, if any.
    pub fn holder(&self) -> Option<u8>
        ensures { result ≡ self.now.state.holder }
    {
        self.state.holder
    }

    /// Whether a thread is past its last instruction; none where the table has no such thread.
    pub fn ended(&self, thread: u8) -> Option<bool>
        ensures { result ≡ has_ended self.now thread }
    {
        self.thread(thread)?;
        Some(self.instruction(thread).is_none())
    }
}
