//! Bytes in place; what is not there reads as 0 and is never written.
ghost use Rattle.std.specs.Prelude.{◌≡◌, slice_index, slice_set};

/// The byte at an index.
pub(crate) fn read(bytes: &[u8], i: u8) -> u8
    ensures { result ≡ slice_index bytes.now i }
{
    bytes.get(usize::from(i)).copied().unwrap_or(0)
}

/// The byte at an index takes a value.
// The index is tested: with `get_mut` the contract was not proved.
#[tactic(auto, using(std::proofs::lemmas::List::set_past))]
pub(crate) fn write(bytes: &mut [u8], i: u8, value: u8)
    ensures { bytes.new ≡ slice_set bytes.old i value }
{
    let i = usize::from(i);
    if i < bytes.len() {
        bytes[i] = value;
    }
}
