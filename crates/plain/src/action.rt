//! What a thread at an instruction is about to do.
ghost use Rattle.std.specs.Prelude.{◌≡◌, ◌<◌, if◌then◌else◌};
ghost use Rattle.model.specs.Action.{about, register as register_of, stuck};
ghost use Rattle.model.specs.declared.state.Way.TheVariants as ways;
ghost use Rattle.plain.specs.Acts.{meaning};

use crate::cells;
use model::code::Instruction;
use model::state::{Thread, Way};

/// What a thread changes besides its place.
#[derive(Clone, Copy)]
pub(crate) enum Effect {
    /// Only the place changes; a machine with queues tells it from `Fence`.
    Nothing,
    /// A register takes a value.
    Take(u8, u8),
    /// The link names a place.
    Link(u16),
    /// A register takes the value of a word.
    Read(u8, u8),
    /// A word takes a value.
    Write(u8, u8),
    /// Nothing, once no store of the thread waits.
    Fence,
    /// A word that has an expected value takes a new one.
    Swap(u8, u8, u8),
    /// The thread enters the section, and a register takes a value.
    Open(u8, u8),
    /// The thread leaves the section.
    Shut,
}

/// What a thread is about to do: an effect, and the place where it goes.
#[derive(Clone, Copy)]
pub(crate) struct Action {
    pub(crate) effect: Effect,
    pub(crate) to: u16,
}

/// A register of a thread.
fn register(thread: &Thread, r: u8) -> u8
    ensures { result ≡ register_of thread.now r }
{
    cells::read(&thread.registers, r)
}

/// What a thread at an instruction does by way 0; none if it is not free to step, or lacks what it needs.
fn onward(thread: &Thread, free: bool, instruction: Instruction) -> Option<Action>
    requires { thread.now.place < 65535 }
    ensures { meaning thread.now result ≡ (if free then about instruction ways.Next thread.now else stuck) }
{
    use Effect::{Fence, Link, Nothing, Open, Read, Shut, Swap, Take, Write};
    let next = thread.place + 1;
    // Tested for each op and not once before them, which took a fifth more time for each step.
    let does = |effect, to| free.then_some(Action { effect, to });
    let take = |r, value| does(Take(r, value), next);
    let goes = |test, to| does(Nothing, if test { to } else { next });
    let needs = |test, effect| if test { does(effect, next) } else { None };
    let get = |r| register(thread, r);
    match instruction {
        Instruction::Set { register, constant } => take(register, constant),
        Instruction::Move { into, from } => take(into, get(from)),
        Instruction::Add { into, from } => take(into, get(into).wrapping_add(get(from))),
        Instruction::Inc { register, constant } => {
            take(register, get(register).wrapping_add(constant))
        }
        Instruction::Jump { target } => does(Nothing, target),
        Instruction::IfEq {
            register,
            constant,
            target,
        } => goes(get(register) == constant, target),
        Instruction::IfLt {
            left,
            right,
            target,
        } => goes(get(left) < get(right), target),
        Instruction::Pick { .. } => does(Nothing, next),
        Instruction::Wait { left, right } => needs(get(left) == get(right), Nothing),
        Instruction::Load { register, word } => does(Read(register, word), next),
        Instruction::Store { word, register } => does(Write(word, get(register)), next),
        Instruction::Fence => does(Fence, next),
        Instruction::Arw {
            word,
            expected,
            new,
        } => does(Swap(word, get(expected), get(new)), next),
        Instruction::Open { register, limit } => {
            let value = get(register);
            needs(value < limit, Open(register, value.wrapping_add(1)))
        }
        Instruction::Shut { target } => does(Shut, target),
        Instruction::Call { target } => does(Link(next), target),
        Instruction::Back => does(Nothing, thread.link),
    }
}

/// What a thread at an instruction is about to do by a way; none if it is not free to step, or lacks what it needs.
pub(crate) fn intent(
    thread: &Thread,
    free: bool,
    instruction: Instruction,
    way: Way,
) -> Option<Action>
    requires { thread.now.place < 65535 }
    ensures { meaning thread.now result ≡ (if free then about instruction way thread.now else stuck) }
{
    match (way, instruction) {
        (Way::Next, _) => onward(thread, free, instruction),
        (Way::Aside, Instruction::Pick { target }) if free => Some(Action {
            effect: Effect::Nothing,
            to: target,
        }),
        (Way::Aside, _) => None,
    }
}
