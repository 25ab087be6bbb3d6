//! Calls with the answers that they should have.
use memory::calls::{Call, Reply, make};
use memory::interface::SharedMemory;
use model::faults::MemoryFault;
use std::process::Abort;

/// Makes the calls on the memory of that name, and checks what each answers.
pub(crate) fn run<M: SharedMemory>(
    rt: &impl Abort,
    name: &str,
    memory: &mut M,
    script: &[(Call, Result<Reply, MemoryFault>)],
) {
    for (call, expected) in script {
        assert_eq!(rt; make(memory, *call), *expected, "{name}");
    }
}

pub(crate) fn put(thread: u8, word: u8, value: u8) -> Call {
    Call::Put {
        thread,
        word,
        value,
    }
}

pub(crate) fn look(thread: u8, word: u8) -> Call {
    Call::Look { thread, word }
}

pub(crate) fn swap(word: u8, expected: u8, new: u8) -> Call {
    Call::Exchange {
        word,
        expected,
        new,
    }
}
