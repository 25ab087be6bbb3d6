//! Which threads and words there are.
ghost use Rattle.std.specs.Prelude.{◌≡◌};
ghost use Rattle.model.specs.Memory.{thread_there, word_there};

use model::faults::MemoryFault;
use model::numbers::require;

/// Refuses a thread that is not there.
pub(crate) fn check_thread(thread: u8) -> Result<(), MemoryFault>
    ensures { result ≡ thread_there thread }
{
    require(thread < 4, MemoryFault::NoThread { thread })
}

/// Refuses a word that is not there.
pub(crate) fn check_word(word: u8) -> Result<(), MemoryFault>
    ensures { result ≡ word_there word }
{
    require(word < 8, MemoryFault::NoWord { word })
}
