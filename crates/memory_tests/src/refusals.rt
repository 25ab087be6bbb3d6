//! Every refusal of every memory.
use crate::script::{look, put, run, swap};
use memory::calls::Call;
use memory::calls::Reply::{Exchanged, Number};
use memory::interface::SharedMemory;
use memory::narrow::Narrow;
use memory::plain::PlainMemory;
use memory::queue::QueueMemory;
use model::faults::MemoryFault::{Empty, Full, NoThread, NoWord};
use model::faults::Refusal;
use std::process::Abort;

fn refuses<M: SharedMemory>(rt: &impl Abort, name: &str, memory: &mut M) {
    let script = [
        (look(4, 0), Err(NoThread { thread: 4 })),
        (look(0, 8), Err(NoWord { word: 8 })),
        (Call::Word { word: 8 }, Err(NoWord { word: 8 })),
        (Call::Idle { thread: 4 }, Err(NoThread { thread: 4 })),
        (put(4, 0, 1), Err(NoThread { thread: 4 })),
        (put(3, 8, 1), Err(NoWord { word: 8 })),
        (Call::Drain { thread: 255 }, Err(NoThread { thread: 255 })),
        (swap(8, 0, 1), Err(NoWord { word: 8 })),
        (Call::Drain { thread: 3 }, Err(Empty { thread: 3 })),
        (swap(1, 0, 7), Ok(Exchanged(true))),
        (swap(1, 0, 9), Ok(Exchanged(false))),
        (Call::Word { word: 1 }, Ok(Number(7))),
    ];
    run(rt, name, memory, &script);
}

#[test]
fn each_is_refused(rt: HostRuntime) {
    refuses(&rt, "plain", &mut PlainMemory::new());
    refuses(&rt, "queue", &mut QueueMemory::new());
    refuses(&rt, "layer", &mut Narrow::new(QueueMemory::new(), 3));
}

#[test]
fn each_has_its_number(rt: HostRuntime) {
    let cases = [
        (NoThread { thread: 4 }, 9),
        (NoWord { word: 8 }, 9),
        (Full { thread: 0 }, 15),
        (Empty { thread: 3 }, 16),
    ];
    for (fault, number) in cases {
        assert_eq!(rt; Refusal::from(fault).number, number);
    }
}
