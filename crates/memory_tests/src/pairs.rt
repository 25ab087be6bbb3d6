//! The same calls on two memories.
use crate::script::put;
use memory::calls::Call;
use memory::compare::compare;
use memory::narrow::Narrow;
use memory::plain::PlainMemory;
use memory::queue::QueueMemory;

#[test]
fn equal_memories_agree(rt: HostRuntime) {
    let mut layer = Narrow::new(QueueMemory::new(), 255);
    let calls = [
        put(0, 1, 5),
        Call::Depth,
        Call::Drain { thread: 0 },
        Call::Word { word: 1 },
    ];
    assert!(rt; compare(&mut QueueMemory::new(), &mut layer, &calls));
}

#[test]
fn a_queue_is_told_from_plain_memory(rt: HostRuntime) {
    let calls = [put(0, 1, 5), Call::Idle { thread: 0 }];
    assert!(rt; !compare(&mut PlainMemory::new(), &mut QueueMemory::new(), &calls));
}
