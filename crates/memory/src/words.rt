//! Eight words.
ghost use Rattle.std.specs.Prelude.{◌≡◌, ◌==◌, ◌&&◌, if◌then◌else◌, ℕ, List, nat_lt, replicate, slice_index, slice_set};
ghost use Rattle.model.specs.Memory.{word_there};
ghost use Rattle.model.specs.Steps.{and_then};

use crate::bounds::check_word;
use model::faults::MemoryFault;
use std::marker::Model;

/// The words that every thread shares.
#[derive(Drop)]
pub(crate) struct Words {
    held: [u8; 8],
}

impl Model for Words {
    ghost Value = { List ℕ };

    ghost view = { λ w. w.held };
}

impl Words {
    /// Every word 0.
    pub(crate) fn new() -> Words
        ensures { result ≡ replicate 8 0 }
    {
        Words { held: [0; 8] }
    }

    /// What a word holds.
    pub(crate) fn get(&self, word: u8) -> Result<u8, MemoryFault>
        ensures { result ≡ and_then (word_there word) (λ _. Ok (slice_index self.now word)) }
    {
        check_word(word)?;
        Ok(self.held[word as usize])
    }

    /// A word takes a value.
    pub(crate) fn set(&mut self, word: u8, value: u8) -> Result<(), MemoryFault>
        ensures answer { result ≡ word_there word }
        ensures after { self.new ≡ (if nat_lt word 8 then slice_set self.old word value else self.old) }
    {
        check_word(word)?;
        self.held[word as usize] = value;
        Ok(())
    }

    /// Whether a word holds the expected value, and then it takes the new one.
    pub(crate) fn exchange(&mut self, word: u8, expected: u8, new: u8) -> Result<bool, MemoryFault>
        ensures answer { result ≡ and_then (word_there word) (λ _. Ok (slice_index self.old word == expected)) }
        ensures after { self.new ≡ (if nat_lt word 8 && slice_index self.old word == expected then slice_set self.old word new else self.old) }
    {
        let had = self.get(word)? == expected;
        if had {
            self.set(word, new)?;
        }
        Ok(had)
    }
}
