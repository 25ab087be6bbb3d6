//! Header bytes and thread entries.
use crate::samples::{FENCE, LEAST, LEAST_TRANSLATED, entry, joined, refused, repeated, with_byte};
use std::test::Fail;

#[test]
fn header_of_a_source_table(rt: HostRuntime) {
    let cases = [
        (0, 0, Some((2, 0))),
        (0, 1, None),
        (0, 2, Some((2, 0))),
        (1, 2, Some((2, 1))),
        (2, 0, Some((2, 2))),
        (2, 4, Some((1, 16))),
        (2, 5, Some((2, 2))),
        (3, 0, Some((2, 3))),
        (3, 8, None),
        (3, 9, Some((2, 3))),
        (4, 0, Some((2, 4))),
        (4, 16, None),
        (4, 17, Some((2, 4))),
        (5, 1, Some((2, 5))),
    ];
    for (at, value, expected) in cases {
        let bytes = with_byte(LEAST, at, value);
        assert_eq!(rt; refused(&bytes), expected, "{}", at);
    }
}

#[test]
fn header_of_a_translated_table(rt: HostRuntime) {
    let cases = [
        (1, 0, Some((2, 5))),
        (1, 1, None),
        (4, 82, None),
        (4, 83, Some((2, 4))),
        (5, 0, Some((2, 5))),
        (5, 4, None),
        (5, 5, Some((2, 5))),
    ];
    for (at, value, expected) in cases {
        let bytes = with_byte(LEAST_TRANSLATED, at, value);
        assert_eq!(rt; refused(&bytes), expected, "{}", at);
    }
}

#[test]
fn position_and_count_of_an_entry(rt: HostRuntime) {
    let cases = [
        (6, 8, Some((3, 6))),
        (6, 12, Some((3, 6))),
        (7, 1, Some((3, 6))),
        (8, 0, Some((3, 6))),
        (8, 2, Some((1, 16))),
        (9, 1, Some((3, 6))),
    ];
    for (at, value, expected) in cases {
        let bytes = with_byte(LEAST, at, value);
        assert_eq!(rt; refused(&bytes), expected, "{}", at);
    }
}

#[test]
fn most_instructions(rt: HostRuntime) -> Result<(), Fail> {
    let cases = [
        (LEAST, 48, None),
        (LEAST, 49, Some((3, 6))),
        (LEAST_TRANSLATED, 1400, None),
        (LEAST_TRANSLATED, 1401, Some((3, 6))),
    ];
    for (table, count, expected) in cases {
        let bytes = repeated(rt.alloc(), table, count)?;
        assert_eq!(rt; refused(bytes.as_slice()), expected, "{}", count);
    }
    Ok(())
}

#[test]
fn position_of_a_second_entry(rt: HostRuntime) -> Result<(), Fail> {
    let header = [1, 0, 2, 1, 1, 0];
    let (first, second, off) = (entry(14), entry(20), entry(22));
    let good = joined(rt.alloc(), &[&header, &first, &second, &FENCE, &FENCE])?;
    assert_eq!(rt; refused(good.as_slice()), None);
    let bad = joined(rt.alloc(), &[&header, &first, &off, &FENCE, &FENCE])?;
    assert_eq!(rt; refused(bad.as_slice()), Some((3, 10)));
    Ok(())
}

#[test]
fn four_threads(rt: HostRuntime) -> Result<(), Fail> {
    let header = [1, 0, 4, 1, 1, 0];
    let entries = [22, 0, 1, 0, 28, 0, 1, 0, 34, 0, 1, 0, 40, 0, 1, 0];
    let open = [13, 0, 0, 0, 0, 0];
    let good = joined(
        rt.alloc(),
        &[&header, &entries, &FENCE, &FENCE, &FENCE, &FENCE],
    )?;
    assert_eq!(rt; refused(good.as_slice()), None);
    let bad = joined(
        rt.alloc(),
        &[&header, &entries, &FENCE, &FENCE, &FENCE, &open],
    )?;
    assert_eq!(rt; refused(bad.as_slice()), Some((4, 40)));
    Ok(())
}
