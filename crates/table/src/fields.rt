//! One instruction: its six bytes, their roles, their limits, and what they spell.
ghost use Rattle.std.specs.Prelude.{◌≡◌, ◌^◌, ◌<◌, ◌≤◌, false, nat_lt};
ghost use Rattle.model.specs.Ops.{op_byte};
ghost use Rattle.model.specs.Steps.{demand};
ghost use Rattle.model.specs.Table.{shape as shape_by_op, instruction_of, field_limit, target_limit, operands_fault};
ghost use Rattle.model.specs.declared.faults.TableFault.TheVariants.{Operand};
ghost use Rattle.table.specs.Fields.{fields_of};
ghost use Rattle.table.specs.Sixes.{six_fault, six_spells};

use model::code::{Instruction, Limits, Op, Role, Shape};
use model::faults::TableFault;
use model::numbers::require;

/// The fields of an instruction: the byte of its op as it is read, three operands and a target.
#[derive(Clone, Copy)]
struct Fields {
    op: u8,
    p: u8,
    q: u8,
    r: u8,
    target: u16,
}

impl From<[u8; 6]> for Fields {
    ghost from_gives = { λ six f. f ≡ fields_of six };

    fn from(six: [u8; 6]) -> Fields {
        let [op, p, q, r, low, high] = six;
        Fields {
            op,
            p,
            q,
            r,
            target: u16::from_le_bytes([low, high]),
        }
    }
}

impl Fields {
    /// The instruction of an op that has no target.
    fn straight(self, op: Op) -> Instruction
        ensures { (shape_by_op (op_byte op)).aims ≡ false → result ≡ instruction_of (op_byte op) self.p self.q self.r 0 }
    {
        let Fields { p, q, r, .. } = self;
        match op {
            Op::Set => Instruction::Set {
                register: p,
                constant: r,
            },
            Op::Move => Instruction::Move { into: p, from: q },
            Op::Add => Instruction::Add { into: p, from: q },
            Op::Inc => Instruction::Inc {
                register: p,
                constant: r,
            },
            Op::Wait => Instruction::Wait { left: p, right: q },
            Op::Load => Instruction::Load {
                register: p,
                word: q,
            },
            Op::Store => Instruction::Store {
                word: p,
                register: q,
            },
            Op::Fence => Instruction::Fence,
            Op::Arw => Instruction::Arw {
                word: p,
                expected: q,
                new: r,
            },
            Op::Open => Instruction::Open {
                register: p,
                limit: r,
            },
            _ => Instruction::Back,
        }
    }

    /// The instruction of an op.
    fn spelled(self, op: Op) -> Instruction
        ensures { result ≡ instruction_of (op_byte op) self.p self.q self.r self.target }
    {
        let target = self.target;
        match op {
            Op::Jump => Instruction::Jump { target },
            Op::IfEq => Instruction::IfEq {
                register: self.p,
                constant: self.r,
                target,
            },
            Op::IfLt => Instruction::IfLt {
                left: self.p,
                right: self.q,
                target,
            },
            Op::Pick => Instruction::Pick { target },
            Op::Shut => Instruction::Shut { target },
            Op::Call => Instruction::Call { target },
            _ => self.straight(op),
        }
    }
}

/// What the fields of an op hold.
fn shape(op: Op) -> Shape
    ensures { result ≡ shape_by_op (op_byte op) }
{
    use Role::Constant;
    use Role::Register;
    use Role::Unused;
    use Role::Word;
    let (p, q, r, aims) = match op {
        Op::Set | Op::Inc | Op::Open => (Register, Unused, Constant, false),
        Op::Move | Op::Add | Op::Wait => (Register, Register, Unused, false),
        Op::Jump | Op::Pick | Op::Shut | Op::Call => (Unused, Unused, Unused, true),
        Op::IfEq => (Register, Unused, Constant, true),
        Op::IfLt => (Register, Register, Unused, true),
        Op::Load => (Register, Word, Unused, false),
        Op::Store => (Word, Register, Unused, false),
        Op::Arw => (Word, Register, Register, false),
        Op::Fence | Op::Back => (Unused, Unused, Unused, false),
    };
    Shape { p, q, r, aims }
}

/// What a one-byte field has to stay below.
fn limit(limits: Limits, role: Role) -> u16
    ensures { result ≡ field_limit limits role }
{
    match role {
        Role::Register => limits.registers as u16,
        Role::Word => limits.words as u16,
        Role::Constant => 256,
        Role::Unused => 1,
    }
}

/// What the target has to stay below.
fn aim_limit(limits: Limits, aims: bool) -> u32
    ensures { result ≡ target_limit limits aims }
{
    if aims { limits.count as u32 + 1 } else { 1 }
}

/// Checks the operand of one byte that stands at a position.
fn check_operand(limits: Limits, role: Role, at: usize, value: u8) -> Result<(), TableFault>
    ensures { result ≡ demand (nat_lt value (field_limit limits role)) (Operand at) }
{
    require(
        (value as u16) < limit(limits, role),
        TableFault::Operand { at },
    )
}

/// Checks the operands and the target of an instruction at a position, one after another.
fn check_operands(limits: Limits, shape: Shape, at: usize, fields: Fields) -> Result<(), TableFault>
    requires { at < 2 ^ 32 }
    ensures { result ≡ operands_fault limits shape at fields.p fields.q fields.r fields.target }
{
    check_operand(limits, shape.p, at + 1, fields.p)?;
    check_operand(limits, shape.q, at + 2, fields.q)?;
    check_operand(limits, shape.r, at + 3, fields.r)?;
    require(
        (fields.target as u32) < aim_limit(limits, shape.aims),
        TableFault::Operand { at: at + 4 },
    )
}

/// Checks the six bytes of an instruction at a position.
pub(crate) fn check_instruction(limits: Limits, at: usize, six: [u8; 6]) -> Result<(), TableFault>
    requires position { at < 2 ^ 32 }
    requires ops { limits.ops ≤ 17 }
    ensures { result ≡ six_fault limits at six }
{
    let fields = Fields::from(six);
    let op = Op::try_from(fields.op).map_err(|_| TableFault::Op { at })?;
    require((op as u8) < limits.ops, TableFault::Op { at })?;
    check_operands(limits, shape(op), at, fields)
}

/// The instruction that six bytes spell.
pub(crate) fn instruction(six: [u8; 6]) -> Instruction
    ensures { result ≡ six_spells six }
{
    let fields = Fields::from(six);
    // A table that was read never has a byte here that names no op; to prove it here would ask for it at each step.
    fields.spelled(Op::try_from(fields.op).unwrap_or(Op::Back))
}
