//! Tables to read, and what the reader says of them.
use model::faults::{Layer, Refusal};
use std::alloc::{AllocError, Global};
use table::view::Table;

/// The least table: one thread, one word, one register, one FENCE.
pub(crate) const LEAST: [u8; 16] = [1, 0, 1, 1, 1, 0, 10, 0, 1, 0, 11, 0, 0, 0, 0, 0];

/// The least translated table.
pub(crate) const LEAST_TRANSLATED: [u8; 16] = [1, 1, 1, 1, 1, 1, 10, 0, 1, 0, 11, 0, 0, 0, 0, 0];

pub(crate) const FENCE: [u8; 6] = [11, 0, 0, 0, 0, 0];

/// Number and place of the refusal, since those are the published ones; none where the bytes are accepted, or another
/// layer refuses.
pub(crate) fn refused(bytes: &[u8]) -> Option<(u8, usize)> {
    let Err(fault) = Table::read(bytes) else {
        return None;
    };
    let refusal = Refusal::from(fault);
    (refusal.layer == Layer::Table).then_some((refusal.number, refusal.place))
}

/// The table with one byte changed.
pub(crate) fn with_byte(mut table: [u8; 16], at: usize, value: u8) -> [u8; 16] {
    if let Some(byte) = table.get_mut(at) {
        *byte = value;
    }
    table
}

/// The table with another instruction in place of its only one.
pub(crate) fn with_code(mut table: [u8; 16], code: [u8; 6]) -> [u8; 16] {
    table[10..16].copy_from_slice(&code);
    table
}

/// The table with its FENCE so many times over.
pub(crate) fn repeated(heap: Global, table: [u8; 16], count: u16) -> Result<Vec<u8>, AllocError> {
    let mut bytes = table[..8].to_vec(heap)?;
    bytes.extend_from_slice(&count.to_le_bytes())?;
    bytes.extend_from_slice(table[10..].repeat(heap, count as usize)?.as_slice())?;
    Ok(bytes)
}

/// The entry of a thread of one instruction.
pub(crate) fn entry(position: u8) -> [u8; 4] {
    [position, 0, 1, 0]
}

/// The bytes of a table, part after part.
pub(crate) fn joined(heap: Global, parts: &[&[u8]]) -> Result<Vec<u8>, AllocError> {
    let mut bytes = Vec::new(heap);
    for part in parts {
        bytes.extend_from_slice(part)?;
    }
    Ok(bytes)
}
