//! Three measures that are never taken for one another: places in two kinds of code, and lines.

/// A place in a thread's code of a source table.
#[derive(Clone, Copy, Debug, PartialEq, Eq)]
pub struct SourcePlace(pub u16);

/// A place in a thread's code of a translated table.
#[derive(Clone, Copy, Debug, PartialEq, Eq)]
pub struct TranslatedPlace(pub u16);

/// A line of a schedule.
#[derive(Clone, Copy, Debug, PartialEq, Eq)]
pub struct ScheduleLine(pub usize);

/// A place in a thread's code, with the measure that the table's kind gives it.
#[derive(Clone, Copy, Debug, PartialEq, Eq)]
pub enum Place {
    Source(SourcePlace),
    Translated(TranslatedPlace),
}
