//! Layers: piles of them, limits, and what is below.
use crate::script::{look, put, run};
use memory::calls::Call;
use memory::calls::Reply::{Done, Number};
use memory::narrow::Narrow;
use memory::plain::PlainMemory;
use memory::queue::QueueMemory;
use model::faults::MemoryFault::{Full, NoWord};

#[test]
fn a_pile_over_plain_memory_writes(rt: HostRuntime) {
    let mut memory = Narrow::new(Narrow::new(Narrow::new(PlainMemory::new(), 3), 1), 200);
    let script = [
        (Call::Depth, Ok(Number(0))),
        (put(0, 4, 7), Ok(Done)),
        (put(0, 4, 8), Ok(Done)),
        (Call::Word { word: 4 }, Ok(Number(8))),
        (Call::Idle { thread: 0 }, Ok(Number(0))),
    ];
    run(&rt, "pile", &mut memory, &script);
}

#[test]
fn a_pile_has_the_least_depth(rt: HostRuntime) {
    let mut memory = Narrow::new(Narrow::new(Narrow::new(QueueMemory::new(), 5), 2), 9);
    let script = [
        (Call::Depth, Ok(Number(2))),
        (put(1, 0, 7), Ok(Done)),
        (put(1, 0, 8), Ok(Done)),
        (put(1, 0, 9), Err(Full { thread: 1 })),
        (look(1, 0), Ok(Number(8))),
    ];
    run(&rt, "pile", &mut memory, &script);
}

#[test]
fn a_limit_of_0_counts_as_1(rt: HostRuntime) {
    let script = [
        (Call::Depth, Ok(Number(1))),
        (put(1, 0, 7), Ok(Done)),
        (put(1, 0, 8), Err(Full { thread: 1 })),
    ];
    let mut memory = Narrow::new(QueueMemory::new(), 0);
    run(&rt, "layer", &mut memory, &script);
}

#[test]
fn a_longer_list_below_is_full(rt: HostRuntime) {
    let mut below = QueueMemory::new();
    let before = [(put(0, 1, 5), Ok(Done)), (put(0, 1, 6), Ok(Done))];
    run(&rt, "below", &mut below, &before);
    let mut layer = Narrow::new(below, 1);
    let refused = [
        (put(0, 1, 7), Err(Full { thread: 0 })),
        (put(0, 8, 7), Err(NoWord { word: 8 })),
    ];
    run(&rt, "layer", &mut layer, &refused);
    let mut below = layer.into_inner();
    let after = [
        (put(0, 1, 7), Ok(Done)),
        (Call::Idle { thread: 0 }, Ok(Number(3))),
    ];
    run(&rt, "below", &mut below, &after);
}
