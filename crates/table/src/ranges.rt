//! What a kind of table allows.
ghost use Rattle.std.specs.Prelude.{◌≡◌};
ghost use Rattle.table.specs.Ranges.{ranges_of};

use model::code::{Kind, Op};

/// How many ops a kind of table has, and its largest counts of registers, rounds and instructions.
#[derive(Clone, Copy)]
pub(crate) struct Ranges {
    pub(crate) ops: u8,
    pub(crate) registers: u8,
    pub(crate) least_rounds: u8,
    pub(crate) most_rounds: u8,
    pub(crate) instructions: u16,
}

impl Ranges {
    /// The ranges of a kind.
    pub(crate) fn of(kind: Kind) -> Ranges
        ensures { result ≡ ranges_of kind }
    {
        match kind {
            Kind::Source => Ranges {
                ops: Op::Open as u8,
                registers: 16,
                least_rounds: 0,
                most_rounds: 0,
                instructions: 48,
            },
            Kind::Translated => Ranges {
                ops: Op::Back as u8 + 1,
                registers: 82,
                least_rounds: 1,
                most_rounds: 4,
                instructions: 1400,
            },
        }
    }
}
