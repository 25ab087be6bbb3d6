//! Instructions: their ops, their operands, and what they are read as.
use crate::samples::{LEAST, LEAST_TRANSLATED, refused, with_code};
use std::alloc::{AllocError, Global};
use std::test::Fail;
use table::view::Table;

/// An instruction of every op, with the line that says it.
const EVERY_OP: [([u8; 6], &str); 17] = [
    ([0, 1, 0, 255, 0, 0], "SET register 1 to 255"),
    ([1, 2, 1, 0, 0, 0], "MOVE register 2 from register 1"),
    ([2, 1, 2, 0, 0, 0], "ADD register 2 to register 1"),
    ([3, 1, 0, 7, 0, 0], "INC register 1 by 7"),
    ([4, 0, 0, 0, 17, 0], "JUMP to 17"),
    ([5, 2, 0, 9, 3, 0], "IFEQ register 2 is 9, to 3"),
    (
        [6, 0, 2, 0, 4, 0],
        "IFLT register 0 is below register 2, to 4",
    ),
    ([7, 0, 0, 0, 5, 0], "PICK the next place or 5"),
    ([8, 1, 0, 0, 0, 0], "WAIT until registers 1 and 0 are equal"),
    ([9, 2, 1, 0, 0, 0], "LOAD register 2 from word 1"),
    ([10, 1, 2, 0, 0, 0], "STORE word 1 from register 2"),
    ([11, 0, 0, 0, 0, 0], "FENCE"),
    (
        [12, 1, 0, 2, 0, 0],
        "ARW word 1 from register 0 to register 2",
    ),
    ([13, 2, 0, 4, 0, 0], "OPEN a section, register 2 below 4"),
    ([14, 0, 0, 0, 6, 0], "SHUT the section, to 6"),
    ([15, 0, 0, 0, 16, 0], "CALL 16"),
    ([16, 0, 0, 0, 0, 0], "BACK"),
];

#[test]
fn ops_and_operands(rt: HostRuntime) {
    let cases = [
        ([12, 0, 0, 0, 0, 0], None),
        ([13, 0, 0, 0, 0, 0], Some((4, 10))),
        ([11, 1, 0, 0, 0, 0], Some((5, 11))),
        ([11, 0, 1, 0, 0, 0], Some((5, 12))),
        ([11, 0, 0, 1, 0, 0], Some((5, 13))),
        ([11, 0, 0, 0, 1, 0], Some((5, 14))),
        ([11, 0, 0, 0, 0, 1], Some((5, 14))),
        ([0, 0, 0, 255, 0, 0], None),
        ([0, 1, 0, 255, 0, 0], Some((5, 11))),
        ([9, 0, 1, 0, 0, 0], Some((5, 12))),
        ([12, 0, 0, 1, 0, 0], Some((5, 13))),
        ([4, 0, 0, 0, 1, 0], None),
        ([4, 0, 0, 0, 2, 0], Some((5, 14))),
        ([4, 0, 0, 0, 0, 1], Some((5, 14))),
    ];
    for (code, expected) in cases {
        let bytes = with_code(LEAST, code);
        assert_eq!(rt; refused(&bytes), expected, "{}", code[0]);
    }
}

#[test]
fn ops_of_a_translated_table(rt: HostRuntime) {
    let last = with_code(LEAST_TRANSLATED, [16, 0, 0, 0, 0, 0]);
    assert_eq!(rt; refused(&last), None);
    let past = with_code(LEAST_TRANSLATED, [17, 0, 0, 0, 0, 0]);
    assert_eq!(rt; refused(&past), Some((4, 10)));
}

/// The translated table of two words and three registers whose only thread has every op.
fn table_of_every_op(heap: Global) -> Result<Vec<u8>, AllocError> {
    let mut bytes = [1, 1, 1, 2, 3, 1, 10, 0, 17, 0].to_vec(heap)?;
    for (code, _) in &EVERY_OP {
        bytes.extend_from_slice(code)?;
    }
    Ok(bytes)
}

#[test]
fn every_op_reads_back(rt: HostRuntime) -> Result<(), Fail> {
    let bytes = table_of_every_op(rt.alloc())?;
    let Ok(table) = Table::read(bytes.as_slice()) else {
        return Err(Fail::new("the table of every op is refused"));
    };
    for (place, (_, text)) in (0..).zip(EVERY_OP) {
        let Some(instruction) = table.instruction(0, place) else {
            return Err(Fail::new(text));
        };
        assert_eq!(rt; instruction.to_string(rt.alloc())?.as_str(), text);
    }
    assert!(rt; table.instruction(0, 17).is_none());
    assert!(rt; table.instruction(1, 0).is_none());
    Ok(())
}
