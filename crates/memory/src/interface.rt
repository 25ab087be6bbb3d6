//! What every memory does: eight words, the pending stores of four threads, and a depth.
ghost use Rattle.std.specs.Prelude.{◌≡◌, Some};
ghost use Rattle.model.specs.Memory.{Memory, cleared, look as looked, word as worded, idle as idled, put as putting, drain as draining, exchange as exchanging, said, left, swapped, swap_left};

use model::faults::MemoryFault;

/// A memory: it answers as its value says, and a call leaves the value that the call's definition gives.
pub trait SharedMemory {
    ghost value: { Self → Memory };

    /// Every word 0, nothing pending.
    fn clear(&mut self)
        ensures after { value self.new ≡ cleared (value self.old) };

    /// What a thread sees in a word: its newest pending store there, or else the word itself.
    fn look(&self, thread: u8, word: u8) -> Result<u8, MemoryFault>
        ensures answer { result ≡ looked (value self.now) thread word };

    /// What a word itself holds.
    fn word(&self, word: u8) -> Result<u8, MemoryFault>
        ensures answer { result ≡ worded (value self.now) word };

    /// How many stores of a thread are pending.
    fn idle(&self, thread: u8) -> Result<u8, MemoryFault>
        ensures answer { result ≡ idled (value self.now) thread };

    /// How many stores of a thread may be pending at once; 0 where each is written at once.
    fn depth(&self) -> u8
        ensures answer { (value self.now).depth ≡ Some result };

    /// A store: at depth 0 it is written at once, else it waits as the thread's newest.
    fn put(&mut self, thread: u8, word: u8, byte: u8) -> Result<(), MemoryFault>
        ensures answer { result ≡ said (putting (value self.old) thread word byte) }
        ensures after { value self.new ≡ left (value self.old) (putting (value self.old) thread word byte) };

    /// The oldest pending store of a thread is written.
    fn drain(&mut self, thread: u8) -> Result<(), MemoryFault>
        ensures answer { result ≡ said (draining (value self.old) thread) }
        ensures after { value self.new ≡ left (value self.old) (draining (value self.old) thread) };

    /// Whether a word holds the expected value, and then it holds the new one.
    fn exchange(&mut self, word: u8, expected: u8, new: u8) -> Result<bool, MemoryFault>
        ensures answer { result ≡ swapped (exchanging (value self.old) word expected new) }
        ensures after { value self.new ≡ swap_left (value self.old) (exchanging (value self.old) word expected new) };
}
