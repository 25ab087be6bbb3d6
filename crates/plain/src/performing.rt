//! What an action does to a run.
ghost use Rattle.std.specs.Prelude.{◌≡◌, ◌<◌, Some};
ghost use Rattle.model.specs.Plain.{performed, thread_of};
ghost use Rattle.std.specs.Option.{MatchOption};
ghost use Rattle.plain.specs.Acts.{IsUndone, meaning};

use crate::action::{Action, Effect};
use crate::cells;
use model::state::State;

/// Does what a thread is about to do; none, and nothing changes, if the run lacks what it needs.
pub(crate) fn perform(state: &mut State, thread: u8, action: Action) -> Option<()>
    requires { thread < 4 }
    ensures { MatchOption result (IsUndone state.old state.new (performed state.old thread (meaning (thread_of state.old.threads thread) (Some action)))) (λ _. performed state.old thread (meaning (thread_of state.old.threads thread) (Some action)) ≡ Some state.new) }
{
    let own = &mut state.threads[usize::from(thread)];
    match action.effect {
        Effect::Nothing | Effect::Fence => {}
        Effect::Take(register, value) => cells::write(&mut own.registers, register, value),
        Effect::Link(place) => own.link = place,
        Effect::Read(register, word) => cells::write(
            &mut own.registers,
            register,
            cells::read(&state.words, word),
        ),
        Effect::Write(word, value) => cells::write(&mut state.words, word, value),
        Effect::Swap(word, expected, new) => {
            if cells::read(&state.words, word) != expected {
                return None;
            }
            cells::write(&mut state.words, word, new);
        }
        Effect::Open(register, value) => {
            if state.holder.is_some() {
                return None;
            }
            cells::write(&mut own.registers, register, value);
            state.holder = Some(thread);
        }
        Effect::Shut => {
            if state.holder != Some(thread) {
                return None;
            }
            state.holder = None;
        }
    }
    own.place = action.to;
    Some(())
}
