//! Reading a table, and asking what it says.
ghost use Rattle.std.specs.Prelude.{◌≡◌, ◌<◌, ◌≤◌, length, slice_index, IfOk, OnSome};
ghost use Rattle.std.specs.List.{slice_get};
ghost use Rattle.std.specs.Option.{MatchOption, option_map};
ghost use Rattle.model.specs.Table.{aside_of, decode, fetch, placed};
ghost use Rattle.table.specs.Said.{said, answered, begins};
ghost use Rattle.table.specs.Threads.{IsCode, IsEntry};

use crate::layout::{Entry, Layout};
use crate::view::Table;
use crate::{fields, reader};
use model::code::{Instruction, Kind};
use model::faults::TableFault;
use model::places::{Place, SourcePlace, TranslatedPlace};

impl<'a> Table<'a> {
    /// Checks the bytes: the table that they are, or their first fault.
    pub fn read(bytes: &'a [u8]) -> Result<Table<'a>, TableFault>
        ensures answer { answered result ≡ decode bytes.now }
        ensures bytes { IfOk result (λ t. t.bytes.now ≡ bytes.now) }
    {
        reader::check(bytes)?;
        Ok(Table { bytes })
    }

    fn layout(&self) -> Layout<'a>
        ensures { result.bytes.now ≡ self.now.bytes.now }
    {
        Layout { bytes: self.bytes }
    }

    /// The entry of a thread, if there is such a thread.
    fn entry(&self, thread: u8) -> Option<Entry>
        ensures { MatchOption result (slice_index self.now.bytes.now 2 ≤ thread) (IsEntry self.now.bytes.now thread) }
    {
        // An `if`, here and below: with `(..).then(|| ..)` the contract was not proved.
        if thread < self.layout().threads() {
            Some(self.layout().entry(thread))
        } else {
            None
        }
    }

    /// The code of a thread, if there is such a thread: the six bytes of each instruction.
    fn code(&self, thread: u8) -> Option<&'a [[u8; 6]]>
        ensures { MatchOption result (slice_index self.now.bytes.now 2 ≤ thread) (λ code. IsCode self.now.bytes.now thread code.now) }
    {
        let layout = self.layout();
        if thread < layout.threads() {
            Some(layout.code(thread))
        } else {
            None
        }
    }

    /// Source or translated.
    pub fn kind(&self) -> Kind
        ensures { result ≡ (said self.now).kind }
    {
        self.layout().kind()
    }

    /// How many threads there are.
    #[tactic(auto, using(crate::proofs::Fetch::length_codes))]
    pub fn threads(&self) -> u8
        ensures answer { result ≡ length (said self.now).code }
        ensures few { result ≤ 4 }
    {
        self.layout().threads()
    }

    /// How many shared words there are.
    pub fn words(&self) -> u8
        ensures answer { result ≡ (said self.now).words }
        ensures few { result ≤ 8 }
    {
        self.bytes[3]
    }

    /// How many registers each thread has.
    pub fn registers(&self) -> u8
        ensures answer { result ≡ (said self.now).registers }
        ensures few { result ≤ 82 }
    {
        self.bytes[4]
    }

    /// How many rounds each thread may open.
    pub fn rounds(&self) -> u8
        ensures { result ≡ (said self.now).rounds }
    {
        self.bytes[5]
    }

    /// How many instructions a thread has; none where there is no such thread.
    #[tactic(auto, using(crate::proofs::Fetch::counted, crate::proofs::Fetch::not_counted))]
    pub fn count(&self, thread: u8) -> Option<u16>
        ensures { result ≡ option_map length (slice_get (said self.now).code thread) }
    {
        self.entry(thread).map(|entry| entry.count)
    }

    /// Where the code of a thread begins; none where there is no such thread.
    pub fn position(&self, thread: u8) -> Option<u16>
        ensures { result ≡ begins self.now thread }
    {
        self.entry(thread).map(|entry| entry.position)
    }

    /// The instruction of a thread at a place; none past the end, or where there is no such thread.
    #[tactic(auto, using(crate::proofs::Fetch::fetched_at, crate::proofs::Fetch::fetched_past, crate::proofs::Fetch::not_fetched))]
    pub fn instruction(&self, thread: u8, place: u16) -> Option<Instruction>
        ensures answer { result ≡ fetch (said self.now) thread place }
        ensures room { OnSome result (place < 65535) }
    {
        let six = self.code(thread)?.get(place as usize)?;
        Some(fields::instruction(*six))
    }

    /// Where the instruction of a thread at a place goes aside, if it can; none where there is no instruction.
    pub fn aside(&self, thread: u8, place: u16) -> Option<Option<u16>>
        ensures { result ≡ option_map aside_of (fetch (said self.now) thread place) }
    {
        match self.instruction(thread, place)? {
            Instruction::Pick { target } => Some(Some(target)),
            _ => Some(None),
        }
    }

    /// A place of this table in the measure of its kind.
    pub fn place(&self, place: u16) -> Place
        ensures { result ≡ placed (said self.now).kind place }
    {
        match self.kind() {
            Kind::Source => Place::Source(SourcePlace(place)),
            Kind::Translated => Place::Translated(TranslatedPlace(place)),
        }
    }
}
