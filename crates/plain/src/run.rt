//! A run of a table.
use model::state::State;
use table::view::Table;

/// A run of the plain machine: the table that it runs, which each call promises to keep, and what the machine holds.
#[derive(Drop)]
pub struct Run<'a> {
    pub(crate) table: Table<'a>,
    pub(crate) state: State,
}
