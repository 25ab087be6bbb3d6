//! The pending stores of four threads, in four rings of 64 places.
ghost use Rattle.std.specs.Prelude.{◌≡◌, ◌+◌, ◌<◌, List, [], ◌∷◌, ◌++◌, IfOk, IfErr, length, nat_lt, replicate, slice_set};
ghost use Rattle.std.specs.List.{All};
ghost use Rattle.model.specs.Memory.{drain, latest as latest_store, left, said, thread_there, word_there};
ghost use Rattle.model.specs.Steps.{and_then, demand};
ghost use Rattle.model.specs.declared.state.Store.{Store};
ghost use Rattle.memory.specs.Rings.{place as place_of, rings, queue, queue_value};

use crate::bounds::{check_thread, check_word};
use crate::span::Span;
use crate::words::Words;
use model::faults::MemoryFault;
use model::numbers::require;
use model::state::Store;
use std::marker::Model;

/// For each thread 64 places, in one array of 256 stores as the project asks for it, and which of them are in use.
#[derive(Drop)]
pub(crate) struct Rings {
    places: [Store; 256],
    spans: [Span; 4],
}

impl Model for Rings {
    ghost Value = { List (List Store) };

    ghost view = { λ r. rings r.places r.spans };

    ghost invariant = { λ r. All (λ s. s.word < 8) r.places };
}

/// The place of a thread that is so many steps from its first.
fn place(thread: u8, head: u8, steps: u8) -> usize
    ensures { result ≡ place_of thread (head + steps) }
{
    // The sum may wrap around, since 64 divides 256.
    64 * thread as usize + (head.wrapping_add(steps) % 64) as usize
}

// A span is read part by part, and the oldest store too, as they are written: read whole they wait for the writes, and a put
// with its drain was measured at twice the time.
impl Rings {
    /// Nothing pending.
    pub(crate) fn new() -> Rings
        ensures { result ≡ replicate 4 [] }
    {
        Rings {
            places: [Store { word: 0, value: 0 }; 256],
            spans: [Span { head: 0, count: 0 }; 4],
        }
    }

    /// Every pending store is let go; no place is touched.
    pub(crate) fn clear(&mut self)
        ensures { self.new ≡ replicate 4 [] }
    {
        self.spans = [Span { head: 0, count: 0 }; 4];
    }

    /// How many stores of a thread are pending.
    pub(crate) fn count(&self, thread: u8) -> Result<u8, MemoryFault>
        ensures { result ≡ and_then (thread_there thread) (λ _. Ok (length (queue self.now thread))) }
    {
        check_thread(thread)?;
        Ok(self.spans[thread as usize].count)
    }

    /// A store takes the first free place of its thread.
    pub(crate) fn append(&mut self, thread: u8, store: Store) -> Result<(), MemoryFault>
        ensures answer { result ≡ and_then (thread_there thread) (λ _. and_then (word_there store.word) (λ _. demand (nat_lt (length (queue self.old thread)) 64) (MemoryFault.Full thread))) }
        ensures stored { IfOk result (λ _. self.new ≡ slice_set self.old thread (queue self.old thread ++ store ∷ [])) }
        ensures refused { IfErr result (λ _. self.new ≡ self.old) }
    {
        check_thread(thread)?;
        let Span { head, count } = self.spans[thread as usize];
        check_word(store.word)?;
        require(count < 64, MemoryFault::Full { thread })?;
        self.places[place(thread, head, count)] = store;
        self.spans[thread as usize] = Span {
            head,
            count: count + 1,
        };
        Ok(())
    }

    /// The oldest store of a thread is written to the words, and its place is free.
    pub(crate) fn write_oldest(&mut self, thread: u8, words: &mut Words) -> Result<(), MemoryFault>
        ensures answer { result ≡ said (drain (queue_value words.old self.old) thread) }
        ensures after { queue_value words.new self.new ≡ left (queue_value words.old self.old) (drain (queue_value words.old self.old) thread) }
    {
        check_thread(thread)?;
        let Span { head, count } = self.spans[thread as usize];
        require(count > 0, MemoryFault::Empty { thread })?;
        let Store { word, value } = self.places[place(thread, head, 0)];
        words.set(word, value)?;
        self.spans[thread as usize] = Span {
            head: (head + 1) % 64,
            count: count - 1,
        };
        Ok(())
    }

    /// The value of a thread's newest store to a word, or else what the word holds.
    pub(crate) fn latest(&self, thread: u8, word: u8, held: u8) -> Result<u8, MemoryFault>
        ensures { result ≡ and_then (thread_there thread) (λ _. Ok (latest_store (queue self.now thread) word held)) }
    {
        check_thread(thread)?;
        let Span { head, count } = self.spans[thread as usize];
        // A loop: of the chain `(0..count).rev().map(..).find(..)` the contract was not proved.
        for steps in (0..count).rev() {
            let store = self.places[place(thread, head, steps)];
            if store.word == word {
                return Ok(store.value);
            }
        }
        Ok(held)
    }
}
