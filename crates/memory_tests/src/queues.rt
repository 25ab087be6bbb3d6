//! The ring: past its end, full, and what a thread sees.
use crate::script::{look, put, run};
use memory::calls::Call;
use memory::calls::Reply::{Done, Number};
use memory::queue::QueueMemory;
use model::faults::MemoryFault::Full;

#[test]
fn the_ring_passes_its_end(rt: HostRuntime) {
    let mut memory = QueueMemory::new();
    run(&rt, "first", &mut memory, &[(put(1, 3, 200), Ok(Done))]);
    // The number is the value that is stored.
    for i in 0..130u8 {
        let turn = [
            (put(1, 3, i), Ok(Done)),
            (look(1, 3), Ok(Number(i))),
            (Call::Drain { thread: 1 }, Ok(Done)),
            (Call::Idle { thread: 1 }, Ok(Number(1))),
        ];
        run(&rt, "turn", &mut memory, &turn);
    }
    let last = [(Call::Word { word: 3 }, Ok(Number(128)))];
    run(&rt, "last", &mut memory, &last);
}

#[test]
fn a_full_ring_refuses(rt: HostRuntime) {
    let mut memory = QueueMemory::new();
    // The number is the value that is stored.
    for i in 0..64u8 {
        run(&rt, "filling", &mut memory, &[(put(0, 2, i), Ok(Done))]);
    }
    let script = [
        (put(0, 2, 99), Err(Full { thread: 0 })),
        (look(0, 2), Ok(Number(63))),
        (look(1, 2), Ok(Number(0))),
        (put(1, 2, 98), Ok(Done)),
        (Call::Drain { thread: 0 }, Ok(Done)),
        (put(0, 2, 99), Ok(Done)),
        (Call::Idle { thread: 0 }, Ok(Number(64))),
    ];
    run(&rt, "full", &mut memory, &script);
}

#[test]
fn stores_are_written_in_order(rt: HostRuntime) {
    let script = [
        (put(2, 7, 5), Ok(Done)),
        (put(2, 7, 6), Ok(Done)),
        (look(2, 7), Ok(Number(6))),
        (Call::Word { word: 7 }, Ok(Number(0))),
        (Call::Drain { thread: 2 }, Ok(Done)),
        (look(3, 7), Ok(Number(5))),
        (look(2, 7), Ok(Number(6))),
        (Call::Drain { thread: 2 }, Ok(Done)),
        (look(2, 7), Ok(Number(6))),
        (Call::Clear, Ok(Done)),
        (look(2, 7), Ok(Number(0))),
    ];
    run(&rt, "queue", &mut QueueMemory::new(), &script);
}
