//! A checked table over the bytes that it was read from.
ghost use Rattle.std.specs.Prelude.{◌≡◌, Ok};
ghost use Rattle.model.specs.Table.{table_fault};

/// A checked table: a view of its bytes, which decodes instructions where they are asked for.
#[derive(Clone, Copy)]
pub struct Table<'a> {
    pub(crate) bytes: &'a [u8],
    pub ghost is_table: { table_fault bytes.now ≡ Ok tt },
}
