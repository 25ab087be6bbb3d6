//! The calls of a memory as values, and what they answer.
ghost use Rattle.std.specs.Prelude.{◌≡◌};
ghost use Rattle.memory.specs.Calls.{reply as reply_to, next};

use crate::interface::SharedMemory;
use model::faults::MemoryFault;

/// One call of a memory.
#[derive(Clone, Copy, Debug, PartialEq, Eq)]
pub enum Call {
    Clear,
    Look { thread: u8, word: u8 },
    Word { word: u8 },
    Idle { thread: u8 },
    Depth,
    Put { thread: u8, word: u8, value: u8 },
    Drain { thread: u8 },
    Exchange { word: u8, expected: u8, new: u8 },
}

/// What a call answers if it is not refused.
#[derive(Clone, Copy, Debug, PartialEq, Eq)]
pub enum Reply {
    Done,
    Number(u8),
    Exchanged(bool),
}

/// Makes a call.
pub fn make<M: SharedMemory>(memory: &mut M, call: Call) -> Result<Reply, MemoryFault>
    ensures answer { result ≡ reply_to (M.SharedMemory.value memory.old) call }
    ensures after { M.SharedMemory.value memory.new ≡ next (M.SharedMemory.value memory.old) call }
{
    match call {
        Call::Clear => {
            memory.clear();
            Ok(Reply::Done)
        }
        Call::Look { thread, word } => memory.look(thread, word).map(Reply::Number),
        Call::Word { word } => memory.word(word).map(Reply::Number),
        Call::Idle { thread } => memory.idle(thread).map(Reply::Number),
        Call::Depth => Ok(Reply::Number(memory.depth())),
        Call::Put {
            thread,
            word,
            value,
        } => memory.put(thread, word, value).map(|()| Reply::Done),
        Call::Drain { thread } => memory.drain(thread).map(|()| Reply::Done),
        Call::Exchange {
            word,
            expected,
            new,
        } => memory.exchange(word, expected, new).map(Reply::Exchanged),
    }
}
