//! The same calls on two memories.
ghost use Rattle.std.specs.Prelude.{◌≡◌, IsTrue};
ghost use Rattle.memory.specs.Calls.{called, replies};

use crate::calls::{Call, make};
use crate::interface::SharedMemory;

/// Makes the calls on both, each in order, and says whether all their answers agreed.
pub fn compare<A: SharedMemory, B: SharedMemory>(
    first: &mut A,
    second: &mut B,
    calls: &[Call],
) -> bool
    ensures agreed { IsTrue result → replies (A.SharedMemory.value first.old) calls.now ≡ replies (B.SharedMemory.value second.old) calls.now }
    ensures differed { replies (A.SharedMemory.value first.old) calls.now ≡ replies (B.SharedMemory.value second.old) calls.now → IsTrue result }
    ensures first { A.SharedMemory.value first.new ≡ called (A.SharedMemory.value first.old) calls.now }
    ensures second { B.SharedMemory.value second.new ≡ called (B.SharedMemory.value second.old) calls.now }
    ensures equal { A.SharedMemory.value first.old ≡ B.SharedMemory.value second.old → IsTrue result × (A.SharedMemory.value first.new ≡ B.SharedMemory.value second.new) }
{
    let mut agreed = true;
    for call in calls {
        agreed &= make(first, *call) == make(second, *call);
    }
    agreed
}
