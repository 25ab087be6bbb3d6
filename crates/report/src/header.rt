//! The fields of a table's header.
ghost use Rattle.std.specs.Prelude.{◌≡◌, length, slice_get, IsSomeAnd};
ghost use Rattle.table.specs.Said.{said};
ghost use Rattle.report.specs.Text.{meaning_of, Says, Edition, KindSaid, Threads, Words, Registers, Rounds};

use crate::lines::Field;
use model::code::Kind;
use table::view::Table;

fn kind_meaning(kind: Kind) -> &'static str
    ensures { result.now ≡ meaning_of kind }
{
    match kind {
        Kind::Source => "source: as its author wrote it",
        Kind::Translated => "translated: made from a source",
    }
}

fn field(at: u8, name: &'static str, value: u8, meaning: &'static str) -> Field
    ensures { Says result at name.now value meaning.now }
{
    Field {
        at,
        name,
        value,
        meaning,
    }
}

/// The edition of the format: 1 in every table that is accepted.
pub fn edition() -> Field
    ensures { Edition result }
{
    field(0, "edition", 1, "the only one so far")
}

/// The six fields of the header, one byte each.
pub fn fields(table: &Table) -> [Field; 6]
    ensures edition { IsSomeAnd (slice_get result 0) Edition }
    ensures kind { IsSomeAnd (slice_get result 1) (λ x. KindSaid x (said table.now).kind) }
    ensures threads { IsSomeAnd (slice_get result 2) (λ x. Threads x (length (said table.now).code)) }
    ensures words { IsSomeAnd (slice_get result 3) (λ x. Words x (said table.now).words) }
    ensures registers { IsSomeAnd (slice_get result 4) (λ x. Registers x (said table.now).registers) }
    ensures rounds { IsSomeAnd (slice_get result 5) (λ x. Rounds x (said table.now).rounds) }
{
    let kind = table.kind();
    [
        edition(),
        field(1, "kind", kind as u8, kind_meaning(kind)),
        field(2, "threads", table.threads(), "they run at the same time"),
        field(
            3,
            "shared words",
            table.words(),
            "every thread reads and writes them",
        ),
        field(
            4,
            "registers",
            table.registers(),
            "in each thread, seen by no other",
        ),
        field(
            5,
            "rounds",
            table.rounds(),
            "how many each thread may open; 0 in a source table",
        ),
    ]
}
