//! A memory of depth 64: the stores of each thread wait in a ring of their own.
ghost use Rattle.std.specs.Prelude.{◌≡◌, Some};
ghost use Rattle.memory.specs.Rings.{queue_value};
ghost use Rattle.memory.specs.Values.{fresh};

use crate::bounds::check_thread;
use crate::interface::SharedMemory;
use crate::rings::Rings;
use crate::words::Words;
use model::faults::MemoryFault;
use model::state::Store;

/// Eight words and four rings of 64 places.
#[derive(Drop)]
pub struct QueueMemory {
    words: Words,
    rings: Rings,
}

impl QueueMemory {
    /// Every word 0, nothing pending.
    pub fn new() -> QueueMemory
        ensures { queue_value result.words result.rings ≡ fresh (Some 64) }
    {
        QueueMemory {
            words: Words::new(),
            rings: Rings::new(),
        }
    }
}

impl SharedMemory for QueueMemory {
    ghost value = { λ m. queue_value m.words m.rings };

    fn clear(&mut self) {
        self.words = Words::new();
        self.rings.clear();
    }

    fn look(&self, thread: u8, word: u8) -> Result<u8, MemoryFault> {
        check_thread(thread)?;
        let held = self.word(word)?;
        self.rings.latest(thread, word, held)
    }

    fn word(&self, word: u8) -> Result<u8, MemoryFault> {
        self.words.get(word)
    }

    fn idle(&self, thread: u8) -> Result<u8, MemoryFault> {
        self.rings.count(thread)
    }

    fn depth(&self) -> u8 {
        64
    }

    fn put(&mut self, thread: u8, word: u8, byte: u8) -> Result<(), MemoryFault> {
        self.rings.append(thread, Store { word, value: byte })
    }

    fn drain(&mut self, thread: u8) -> Result<(), MemoryFault> {
        self.rings.write_oldest(thread, &mut self.words)
    }

    fn exchange(&mut self, word: u8, expected: u8, new: u8) -> Result<bool, MemoryFault> {
        self.words.exchange(word, expected, new)
    }
}
