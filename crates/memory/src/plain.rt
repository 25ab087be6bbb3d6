//! A memory of depth 0: nothing is ever pending.
ghost use Rattle.std.specs.Prelude.{◌≡◌, Some};
ghost use Rattle.memory.specs.Values.{fresh, plain_value};

use crate::bounds::check_thread;
use crate::interface::SharedMemory;
use crate::words::Words;
use model::faults::MemoryFault;

/// Eight words.
#[derive(Drop)]
pub struct PlainMemory {
    words: Words,
}

impl PlainMemory {
    /// Every word 0.
    pub fn new() -> PlainMemory
        ensures { plain_value result.words ≡ fresh (Some 0) }
    {
        PlainMemory {
            words: Words::new(),
        }
    }
}

impl SharedMemory for PlainMemory {
    ghost value = { λ m. plain_value m.words };

    fn clear(&mut self) {
        self.words = Words::new();
    }

    fn look(&self, thread: u8, word: u8) -> Result<u8, MemoryFault> {
        check_thread(thread)?;
        self.word(word)
    }

    fn word(&self, word: u8) -> Result<u8, MemoryFault> {
        self.words.get(word)
    }

    fn idle(&self, thread: u8) -> Result<u8, MemoryFault> {
        check_thread(thread)?;
        Ok(0)
    }

    fn depth(&self) -> u8 {
        0
    }

    fn put(&mut self, thread: u8, word: u8, byte: u8) -> Result<(), MemoryFault> {
        check_thread(thread)?;
        self.words.set(word, byte)
    }

    fn drain(&mut self, thread: u8) -> Result<(), MemoryFault> {
        check_thread(thread)?;
        Err(MemoryFault::Empty { thread })
    }

    fn exchange(&mut self, word: u8, expected: u8, new: u8) -> Result<bool, MemoryFault> {
        self.words.exchange(word, expected, new)
    }
}
