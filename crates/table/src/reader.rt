//! Checking a table: the first fault in the order of the format, or none.
ghost use Rattle.std.specs.Prelude.{◌≡◌, ◌+◌, ◌*◌, ◌&&◌, ◌==◌, ◌<◌, ◌≤◌, ◌^◌, Ok, length, slice_index};
ghost use Rattle.model.specs.Steps.{and_then, demand};
ghost use Rattle.model.specs.Table.{kind_of, entry_at, most_instructions, header_fault, entries_end, thread_fault, codes_fault, table_fault, within};
ghost use Rattle.model.specs.declared.faults.TableFault.TheVariants.{Header, Entry as EntryFault};
ghost use Rattle.table.specs.Fours.{fours_end};
ghost use Rattle.table.specs.Sixes.{sixes_fault};

use crate::fields::check_instruction;
use crate::layout::{Entry, Layout};
use crate::ranges::Ranges;
use model::code::{Kind, Limits};
use model::faults::TableFault;
use model::numbers::require;

/// Checks that a byte of the header is in its range.
fn check_range(at: usize, low: u8, n: u8, high: u8) -> Result<(), TableFault>
    ensures { result ≡ demand (within low n high) (Header at) }
{
    require((low..=high).contains(&n), TableFault::Header { at })
}

/// Checks the header, and gives the kind that it names.
fn check_header(header: [u8; 6]) -> Result<Kind, TableFault>
    ensures { result ≡ and_then (header_fault header) (λ _. Ok (kind_of (slice_index header 1))) }
{
    let [edition, kind, threads, words, registers, rounds] = header;
    require(edition == 1, TableFault::Header { at: 0 })?;
    let kind = Kind::try_from(kind).map_err(|_| TableFault::Header { at: 1 })?;
    let ranges = Ranges::of(kind);
    check_range(2, 1, threads, 4)?;
    check_range(3, 1, words, 8)?;
    check_range(4, 1, registers, ranges.registers)?;
    check_range(5, ranges.least_rounds, rounds, ranges.most_rounds)?;
    Ok(kind)
}

/// Checks a thread's entry: where its code has to begin, and how many instructions it may have.
fn check_entry(kind: Kind, thread: usize, entry: Entry, at: usize) -> Result<(), TableFault>
    requires { thread < 2 ^ 32 }
    ensures { result ≡ demand (entry.position == at && within 1 entry.count (most_instructions kind)) (EntryFault (entry_at thread)) }
{
    let most = Ranges::of(kind).instructions;
    require(
        entry.position as usize == at && (1..=most).contains(&entry.count),
        TableFault::Entry { at: 6 + 4 * thread },
    )
}

/// The end of the code that entries name, or their first fault.
fn end_of_code(kind: Kind, entries: &[[u8; 4]]) -> Result<usize, TableFault>
    requires { length entries.now < 2 ^ 8 }
    ensures { result ≡ fours_end kind 0 (6 + 4 * length entries.now) entries.now }
{
    let mut at = 6 + 4 * entries.len();
    for (thread, four) in entries.iter().enumerate() {
        let entry = Entry::from(*four);
        check_entry(kind, thread, entry, at)?;
        at += 6 * entry.count as usize;
    }
    Ok(at)
}

/// Checks the entries of a table, and gives the end of the code that they name.
#[tactic(auto, using(crate::proofs::Fours::entries_of_part))]
fn check_entries(bytes: &[u8], kind: Kind, threads: u8) -> Result<usize, TableFault>
    requires { 6 + 4 * threads ≤ length bytes.now }
    ensures { result ≡ entries_end kind bytes.now 0 (6 + 4 * threads) threads }
{
    let (entries, _) = bytes[6..6 + 4 * threads as usize].as_chunks::<4>();
    end_of_code(kind, entries)
}

/// Checks a thread's instructions one after another.
fn check_code(limits: Limits, start: u16, code: &[[u8; 6]]) -> Result<(), TableFault>
    requires few { length code.now < 2 ^ 16 }
    requires ops { limits.ops ≤ 17 }
    ensures { result ≡ sixes_fault limits start 0 code.now }
{
    for (index, six) in code.iter().enumerate() {
        check_instruction(limits, start as usize + 6 * index, *six)?;
    }
    Ok(())
}

/// Checks the instructions of one thread.
#[tactic(auto, using(crate::proofs::Sixes::thread_sixes))]
fn check_thread(layout: &Layout<'_>, thread: u8) -> Result<(), TableFault>
    requires { thread < slice_index layout.now.bytes.now 2 }
    ensures { result ≡ thread_fault layout.now.bytes.now thread }
{
    let start = layout.entry(thread).position;
    check_code(layout.limits(thread), start, layout.code(thread))
}

/// Checks the instructions of all threads, one thread after another.
#[tactic(auto, using(crate::proofs::Entries::left))]
fn check_threads(layout: &Layout<'_>) -> Result<(), TableFault>
    ensures { result ≡ codes_fault layout.now.bytes.now 0 (slice_index layout.now.bytes.now 2) }
{
    // A thread's number finds its limits, its entry and its code.
    for thread in 0..layout.threads() {
        check_thread(layout, thread)?;
    }
    Ok(())
}

/// The first fault of a table.
pub(crate) fn check(bytes: &[u8]) -> Result<(), TableFault>
    ensures { result ≡ table_fault bytes.now }
{
    let length = bytes.len();
    let Some(header) = bytes.first_chunk::<6>() else {
        return Err(TableFault::Length { length });
    };
    let kind = check_header(*header)?;
    let threads = header[2];
    require(
        6 + 4 * threads as usize <= length,
        TableFault::Length { length },
    )?;
    let end = check_entries(bytes, kind, threads)?;
    require(end == length, TableFault::Length { length })?;
    check_threads(&Layout { bytes })
}
