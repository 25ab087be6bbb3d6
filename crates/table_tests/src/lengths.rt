//! How many bytes a table has.
use crate::samples::{LEAST, refused};
use std::test::Fail;

#[test]
fn short_tables(rt: HostRuntime) {
    // The number is the length, and the place of the refusal.
    for length in 0..16 {
        assert_eq!(rt; refused(&LEAST[..length]), Some((1, length)));
    }
    assert_eq!(rt; refused(&LEAST), None);
}

#[test]
fn long_table(rt: HostRuntime) -> Result<(), Fail> {
    let mut bytes = LEAST.to_vec(rt.alloc())?;
    bytes.push(0)?;
    assert_eq!(rt; refused(bytes.as_slice()), Some((1, 17)));
    bytes.resize(65535, 0)?;
    assert_eq!(rt; refused(bytes.as_slice()), Some((1, 65535)));
    Ok(())
}
