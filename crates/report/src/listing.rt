//! What a table says, line by line.
ghost use Rattle.std.specs.Prelude.{◌≡◌};
ghost use Rattle.table.specs.Said.{said};
ghost use Rattle.report.specs.Parts.{entry_of, listed_of, accepted_of};

use crate::lines::{Accepted, Entry, Listed};
use table::view::Table;

/// The entry of a thread; none where there is no such thread.
pub fn entry(table: &Table, thread: u8) -> Option<Entry>
    ensures { result ≡ entry_of table.now thread }
{
    let position = table.position(thread)?;
    let count = table.count(thread)?;
    Some(Entry {
        at: 6 + 4 * thread as usize,
        thread,
        position,
        count,
    })
}

/// The instruction of a thread at a place; none past the end, or where there is no such thread.
pub fn instruction(table: &Table, thread: u8, place: u16) -> Option<Listed>
    ensures { result ≡ listed_of table.now thread place }
{
    let start = table.position(thread)?;
    let instruction = table.instruction(thread, place)?;
    Some(Listed {
        at: start as usize + 6 * place as usize,
        thread,
        place,
        instruction,
    })
}

/// The verdict on a table that was read.
pub fn accepted(table: &Table) -> Accepted
    ensures { result ≡ accepted_of (said table.now) }
{
    Accepted { kind: table.kind() }
}
