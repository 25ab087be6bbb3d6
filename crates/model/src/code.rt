//! What a table's code is made of.
ghost use Rattle.model.specs.Ops.{IsKind, IsOp};

use crate::numbers::Unknown;

/// Whether a table is as its author wrote it or as the translation wrote it; as a number, the byte that says so.
#[derive(Clone, Copy, Debug, PartialEq, Eq)]
pub enum Kind {
    Source,
    Translated,
}

impl TryFrom<u8> for Kind {
    type Error = Unknown;

    ghost try_from_gives = { IsKind };

    fn try_from(byte: u8) -> Result<Kind, Unknown> {
        match byte {
            0 => Ok(Kind::Source),
            1 => Ok(Kind::Translated),
            _ => Err(Unknown(byte)),
        }
    }
}

/// What an instruction does, in the order of the bytes that stand for it; the last four are for translated tables alone.
#[derive(Clone, Copy, Debug, PartialEq, Eq, PartialOrd, Ord)]
pub enum Op {
    Set,
    Move,
    Add,
    Inc,
    Jump,
    IfEq,
    IfLt,
    Pick,
    Wait,
    Load,
    Store,
    Fence,
    Arw,
    Open,
    Shut,
    Call,
    Back,
}

impl TryFrom<u8> for Op {
    type Error = Unknown;

    ghost try_from_gives = { IsOp };

    fn try_from(byte: u8) -> Result<Op, Unknown> {
        match byte {
            0 => Ok(Op::Set),
            1 => Ok(Op::Move),
            2 => Ok(Op::Add),
            3 => Ok(Op::Inc),
            4 => Ok(Op::Jump),
            5 => Ok(Op::IfEq),
            6 => Ok(Op::IfLt),
            7 => Ok(Op::Pick),
            8 => Ok(Op::Wait),
            9 => Ok(Op::Load),
            10 => Ok(Op::Store),
            11 => Ok(Op::Fence),
            12 => Ok(Op::Arw),
            13 => Ok(Op::Open),
            14 => Ok(Op::Shut),
            15 => Ok(Op::Call),
            16 => Ok(Op::Back),
            _ => Err(Unknown(byte)),
        }
    }
}

/// One instruction, its operands by name: registers, words, constants, and targets in its own thread.
#[derive(Clone, Copy, Debug, PartialEq, Eq)]
pub enum Instruction {
    Set {
        register: u8,
        constant: u8,
    },
    Move {
        into: u8,
        from: u8,
    },
    Add {
        into: u8,
        from: u8,
    },
    Inc {
        register: u8,
        constant: u8,
    },
    Jump {
        target: u16,
    },
    IfEq {
        register: u8,
        constant: u8,
        target: u16,
    },
    IfLt {
        left: u8,
        right: u8,
        target: u16,
    },
    Pick {
        target: u16,
    },
    Wait {
        left: u8,
        right: u8,
    },
    Load {
        register: u8,
        word: u8,
    },
    Store {
        word: u8,
        register: u8,
    },
    Fence,
    Arw {
        word: u8,
        expected: u8,
        new: u8,
    },
    Open {
        register: u8,
        limit: u8,
    },
    Shut {
        target: u16,
    },
    Call {
        target: u16,
    },
    Back,
}

/// What a one-byte field of an instruction holds; unused is a role as the others are, with a limit of its own.
#[derive(Clone, Copy, Debug, PartialEq, Eq)]
pub enum Role {
    Register,
    Word,
    Constant,
    Unused,
}

/// What the fields of an op hold.
#[derive(Clone, Copy, Debug, PartialEq, Eq)]
pub struct Shape {
    pub p: Role,
    pub q: Role,
    pub r: Role,
    pub aims: bool,
}

/// What the op and the operands of a thread's instructions have to stay below: counts, so `ops` is no op.
#[derive(Clone, Copy, Debug, PartialEq, Eq)]
pub struct Limits {
    pub ops: u8,
    pub registers: u8,
    pub words: u8,
    pub count: u16,
}
