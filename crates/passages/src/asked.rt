//! A call of a memory and what it answered, as a line. Each `Display` is written out, since a derived one promises nothing of its text.
ghost use Rattle.std.specs.Prelude.{◌≡◌, Some};
ghost use Rattle.memory.specs.Calls.{reply, next};
ghost use Rattle.passages.specs.Lines.{call_text, reply_text, asked_text};

use memory::calls::{Call, Reply, make};
use memory::interface::SharedMemory;
use model::faults::{MemoryFault, Refusal};
use std::fmt;

/// A call, to be printed.
#[derive(Clone, Copy, PartialEq, Eq)]
pub struct Question {
    pub call: Call,
}

/// An answer, to be printed.
#[derive(Clone, Copy, PartialEq, Eq)]
pub struct Answer {
    pub reply: Result<Reply, MemoryFault>,
}

/// A call and its answer.
#[derive(Clone, Copy, PartialEq, Eq)]
pub struct Asked {
    pub question: Question,
    pub answer: Answer,
}

impl fmt::Display for Question {
    ghost output = { λ q. Some (call_text q.call) };

    fn fmt<W: fmt::Write>(&self, f: &mut fmt::Formatter<W>) -> fmt::Result {
        match self.call {
            Call::Clear => write!(f, "clear"),
            Call::Look { thread, word } => write!(f, "thread {thread} looks at word {word}"),
            Call::Word { word } => write!(f, "word {word} itself"),
            Call::Idle { thread } => write!(f, "waiting stores of thread {thread}"),
            Call::Depth => write!(f, "depth"),
            Call::Put {
                thread,
                word,
                value,
            } => write!(f, "thread {thread} stores {value} to word {word}"),
            Call::Drain { thread } => write!(f, "drain of thread {thread}"),
            Call::Exchange {
                word,
                expected,
                new,
            } => write!(f, "exchange of word {word} from {expected} to {new}"),
        }
    }
}

impl fmt::Display for Answer {
    ghost output = { λ a. Some (reply_text a.reply) };

    fn fmt<W: fmt::Write>(&self, f: &mut fmt::Formatter<W>) -> fmt::Result {
        match self.reply {
            Ok(Reply::Done) => write!(f, "done"),
            Ok(Reply::Number(n)) => write!(f, "{n}"),
            Ok(Reply::Exchanged(had)) => write!(f, "{had}"),
            Err(fault) => {
                let refusal = Refusal::from(fault);
                write!(f, "{refusal}: {fault}")
            }
        }
    }
}

impl fmt::Display for Asked {
    ghost output = { λ a. Some (asked_text a) };

    fn fmt<W: fmt::Write>(&self, f: &mut fmt::Formatter<W>) -> fmt::Result {
        let Asked { question, answer } = self;
        write!(f, "{question}: {answer}")
    }
}

/// Makes a call of a memory, and keeps both sides of it.
pub fn ask<M: SharedMemory>(memory: &mut M, call: Call) -> Asked
    ensures call { result.question.call ≡ call }
    ensures answer { result.answer.reply ≡ reply (M.SharedMemory.value memory.old) call }
    ensures after { M.SharedMemory.value memory.new ≡ next (M.SharedMemory.value memory.old) call }
{
    let reply = make(memory, call);
    Asked {
        question: Question { call },
        answer: Answer { reply },
    }
}
