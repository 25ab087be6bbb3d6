//! Which places of its ring a thread uses.
ghost use Rattle.std.specs.Prelude.{◌<◌, ◌≤◌};

/// The first place in use, and how many are in use.
#[derive(Clone, Copy)]
pub(crate) struct Span {
    pub(crate) head: u8,
    pub(crate) count: u8,
    ghost turned: { head < 64 },
    ghost counted: { count ≤ 64 },
}
