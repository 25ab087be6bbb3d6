//! A layer over any memory that lets fewer stores wait.
ghost use Rattle.std.specs.Prelude.{◌≡◌, ◌<◌};
ghost use Rattle.memory.specs.Values.{narrowed, some_limit};

use crate::bounds::check_word;
use crate::interface::SharedMemory;
use model::faults::MemoryFault;
use model::numbers::require;

/// The memory below with a smaller depth, if the limit is below its own.
#[derive(Drop)]
pub struct Narrow<M> {
    memory: M,
    limit: u8,
    ghost positive: { 0 < limit },
}

impl<M: SharedMemory> Narrow<M> {
    /// A layer over a memory; a limit of 0 counts as 1.
    pub fn new(memory: M, limit: u8) -> Narrow<M>
        ensures memory { result.memory ≡ memory }
        ensures limit { result.limit ≡ some_limit limit }
    {
        Narrow {
            memory,
            limit: limit.max(1),
        }
    }

    /// The memory below.
    pub fn into_inner(self) -> M
        ensures { result ≡ self.memory }
    {
        let Narrow { memory, limit: _ } = self;
        memory
    }
}

impl<M: SharedMemory> SharedMemory for Narrow<M> {
    ghost value = { λ n. narrowed (M.SharedMemory.value n.memory) n.limit };

    fn clear(&mut self) {
        self.memory.clear();
    }

    fn look(&self, thread: u8, word: u8) -> Result<u8, MemoryFault> {
        self.memory.look(thread, word)
    }

    fn word(&self, word: u8) -> Result<u8, MemoryFault> {
        self.memory.word(word)
    }

    fn idle(&self, thread: u8) -> Result<u8, MemoryFault> {
        self.memory.idle(thread)
    }

    fn depth(&self) -> u8 {
        self.memory.depth().min(self.limit)
    }

    fn put(&mut self, thread: u8, word: u8, byte: u8) -> Result<(), MemoryFault> {
        let waiting = self.idle(thread)?;
        check_word(word)?;
        let room = self.memory.depth() == 0 || waiting < self.limit;
        require(room, MemoryFault::Full { thread })?;
        self.memory.put(thread, word, byte)
    }

    fn drain(&mut self, thread: u8) -> Result<(), MemoryFault> {
        self.memory.drain(thread)
    }

    fn exchange(&mut self, word: u8, expected: u8, new: u8) -> Result<bool, MemoryFault> {
        self.memory.exchange(word, expected, new)
    }
}
