//! The header and the entries of a table, and where they say that each thread's code stands.
ghost use Rattle.std.specs.Prelude.{◌≡◌, ◌+◌, ◌*◌, ◌^◌, ◌<◌, ◌≤◌, length, slice_index};
ghost use Rattle.model.specs.Table.{limits as thread_limits, kind_of, two};
ghost use Rattle.table.specs.Layout.{IsLaid};
ghost use Rattle.table.specs.Sixes.{sixes};
ghost use Rattle.table.specs.Threads.{IsEntry};

use crate::ranges::Ranges;
use model::code::{Kind, Limits};

/// The entry of a thread: where its code begins, and how many instructions it has.
#[derive(Clone, Copy)]
pub(crate) struct Entry {
    pub(crate) position: u16,
    pub(crate) count: u16,
}

impl From<[u8; 4]> for Entry {
    ghost from_gives = { λ four e. (e.position ≡ two four 0) × (e.count ≡ two four 2) };

    fn from(four: [u8; 4]) -> Entry {
        Entry {
            position: u16::from_le_bytes([four[0], four[1]]),
            count: u16::from_le_bytes([four[2], four[3]]),
        }
    }
}

/// Bytes with a header and entries, whose code fills the rest; a type beside `Table`, since code is checked through it first.
#[derive(Clone, Copy)]
pub(crate) struct Layout<'a> {
    pub(crate) bytes: &'a [u8],
    ghost is_laid: { IsLaid bytes.now },
}

// `thread < threads` stands in the contracts of `entry`, `limits`, `code` and the reader's `check_thread`: an index type
// would need an `Option` that is always there in the loop over all threads.
impl<'a> Layout<'a> {
    /// Source or translated.
    pub(crate) fn kind(&self) -> Kind
        ensures { result ≡ kind_of (slice_index self.now.bytes.now 1) }
    {
        // A table that was read never has a byte here that names no kind. The default stays, since each step on the plain
        // machine asks the kind, and was measured slower with a proved `unwrap`.
        Kind::try_from(self.bytes[1]).unwrap_or(Kind::Translated)
    }

    /// How many threads there are.
    pub(crate) fn threads(&self) -> u8
        ensures { result ≡ slice_index self.now.bytes.now 2 }
    {
        self.bytes[2]
    }

    /// The entry of a thread.
    pub(crate) fn entry(&self, thread: u8) -> Entry
        requires { thread < slice_index self.now.bytes.now 2 }
        ensures { IsEntry self.now.bytes.now thread result }
    {
        let at = 6 + 4 * thread as usize;
        Entry::from([
            self.bytes[at],
            self.bytes[at + 1],
            self.bytes[at + 2],
            self.bytes[at + 3],
        ])
    }

    /// What the operands of a thread's instructions have to stay below.
    pub(crate) fn limits(&self, thread: u8) -> Limits
        requires { thread < slice_index self.now.bytes.now 2 }
        ensures { result ≡ thread_limits self.now.bytes.now thread }
    {
        Limits {
            ops: Ranges::of(self.kind()).ops,
            registers: self.bytes[4],
            words: self.bytes[3],
            count: self.entry(thread).count,
        }
    }

    /// The code of a thread: the six bytes of each instruction.
    #[tactic(auto, using(crate::proofs::Entries::code_fits, crate::proofs::Sixes::chunks_of_code))]
    pub(crate) fn code(&self, thread: u8) -> &'a [[u8; 6]]
        requires { thread < slice_index self.now.bytes.now 2 }
        ensures code { result.now ≡ sixes self.now.bytes.now thread }
        ensures few { length result.now < 2 ^ 16 }
    {
        let entry = self.entry(thread);
        let start = entry.position as usize;
        let (code, _) = self.bytes[start..start + 6 * entry.count as usize].as_chunks::<6>();
        code
    }
}
