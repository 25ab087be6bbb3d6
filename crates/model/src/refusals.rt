//! Number, place and layer of each refusal.
ghost use Rattle.std.specs.Prelude.{◌≡◌};
ghost use Rattle.model.specs.Refusals.{refusal as refusal_of, line_refusal, machine_refusal, memory_refusal, place_index, replay_refusal, schedule_refusal, steps_refusal, table_refusal, translate_refusal};

use crate::faults::{
    AtLine, Layer, LineFault, MachineFault, MemoryFault, Refusal, ReplayFault, ScheduleFault,
    StepsFault, TableFault, TranslateFault,
};
use crate::places::{Place, ScheduleLine, SourcePlace, TranslatedPlace};

fn numbered(number: u8, place: usize, layer: Layer) -> Refusal
    ensures { result ≡ refusal_of number place layer }
{
    Refusal {
        number,
        place,
        layer,
    }
}

/// How many instructions of the thread stand before the place.
impl From<Place> for usize {
    ghost from_gives = { λ p n. n ≡ place_index p };

    fn from(place: Place) -> usize {
        match place {
            Place::Source(SourcePlace(n)) => n as usize,
            Place::Translated(TranslatedPlace(n)) => n as usize,
        }
    }
}

/// Number, place and layer of the refusal.
impl From<TableFault> for Refusal {
    ghost from_gives = { λ f r. r ≡ table_refusal f };

    fn from(fault: TableFault) -> Refusal {
        let layer = Layer::Table;
        match fault {
            TableFault::Length { length } => numbered(1, length, layer),
            TableFault::Header { at } => numbered(2, at, layer),
            TableFault::Entry { at } => numbered(3, at, layer),
            TableFault::Op { at } => numbered(4, at, layer),
            TableFault::Operand { at } => numbered(5, at, layer),
            TableFault::WrongKind { table } => numbered(7, table as usize, layer),
        }
    }
}

/// Number, place and layer of the refusal.
impl From<MemoryFault> for Refusal {
    ghost from_gives = { λ f r. r ≡ memory_refusal f };

    fn from(fault: MemoryFault) -> Refusal {
        let layer = Layer::Memory;
        match fault {
            MemoryFault::NoThread { thread } => numbered(9, thread as usize, layer),
            MemoryFault::NoWord { word } => numbered(9, word as usize, layer),
            MemoryFault::Full { thread } => numbered(15, thread as usize, layer),
            MemoryFault::Empty { thread } => numbered(16, thread as usize, layer),
        }
    }
}

/// Number, place and layer of the refusal; a memory's refusal keeps its own.
impl From<MachineFault> for Refusal {
    ghost from_gives = { λ f r. r ≡ machine_refusal f };

    fn from(fault: MachineFault) -> Refusal {
        let layer = Layer::Machine;
        match fault {
            MachineFault::NoThread { thread } => numbered(9, thread as usize, layer),
            MachineFault::Ended { place } => numbered(11, place.into(), layer),
            MachineFault::NoWay { place } => numbered(10, place.into(), layer),
            MachineFault::NotGranted { place } => numbered(11, place.into(), layer),
            MachineFault::Memory { fault } => fault.into(),
        }
    }
}

/// Number, place and layer of the refusal: a step's refusal keeps its own.
impl From<StepsFault> for Refusal {
    ghost from_gives = { λ f r. r ≡ steps_refusal f };

    fn from(fault: StepsFault) -> Refusal {
        match fault {
            StepsFault::Byte { index } => numbered(12, index, Layer::Machine),
            StepsFault::Step { index: _, fault } => fault.into(),
        }
    }
}

/// Number and layer of what was refused, at the line.
impl From<AtLine> for Refusal {
    ghost from_gives = { λ f r. r ≡ line_refusal f };

    fn from(fault: AtLine) -> Refusal {
        let ScheduleLine(line) = fault.line;
        match fault.fault {
            LineFault::Byte => numbered(12, line, Layer::Machine),
            LineFault::Machine { fault } => {
                let inner = Refusal::from(fault);
                numbered(inner.number, line, inner.layer)
            }
        }
    }
}

/// Number, place and layer of the refusal: the line is the place once there is one.
impl From<ReplayFault> for Refusal {
    ghost from_gives = { λ f r. r ≡ replay_refusal f };

    fn from(fault: ReplayFault) -> Refusal {
        match fault {
            ReplayFault::Table { fault } => fault.into(),
            ReplayFault::Goal { length } => numbered(17, length, Layer::Machine),
            ReplayFault::Line { at } => at.into(),
        }
    }
}

/// Number, place and layer of the refusal.
impl From<TranslateFault> for Refusal {
    ghost from_gives = { λ f r. r ≡ translate_refusal f };

    fn from(fault: TranslateFault) -> Refusal {
        let layer = Layer::Translation;
        match fault {
            TranslateFault::Table { fault } => fault.into(),
            TranslateFault::Rounds { rounds } => numbered(6, rounds as usize, layer),
            TranslateFault::Short { needed } => numbered(8, needed, layer),
        }
    }
}

/// Number, place and layer of the refusal.
impl From<ScheduleFault> for Refusal {
    ghost from_gives = { λ f r. r ≡ schedule_refusal f };

    fn from(fault: ScheduleFault) -> Refusal {
        let layer = Layer::Translation;
        match fault {
            ScheduleFault::Table { fault } => fault.into(),
            ScheduleFault::Differs { at } => numbered(13, at, layer),
            ScheduleFault::Steps { fault } => fault.into(),
            ScheduleFault::SectionOpen { length } => numbered(14, length, layer),
            ScheduleFault::Short { needed } => numbered(8, needed, layer),
        }
    }
}
