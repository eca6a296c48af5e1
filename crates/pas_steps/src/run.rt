//! The state of a region after a list of steps, whoever made them.
ghost use Rattle.std.specs.Prelude.{◌≡◌};
ghost use Rattle.pas_profile.specs.Profiles.{IsWordOf};
ghost use Rattle.pas_steps.specs.{Effects.target as target_word, Ranges.IsRanged, States.{profile_of, word_in}, Views.{epoch_after as the_epoch, or_zero}};
ghost use Rattle.pas_steps.specs.Runs.{CanRun, IsOpening, IsAfter, IsStepped};

use crate::effect::{epoch_after, new_value, target};
use crate::state::State;
use crate::step::Step;

/// The threads of a region are at most 16, and one more actor is the scavenger.
const MOST_ACTORS: usize = 17;

/// Makes one step of an actor that knows this epoch, and says which it knows then.
fn make(state: &mut State, known: Option<u64>, step: Step) -> Option<u64>
    requires of_region { IsWordOf (profile_of state.old) (target_word step) }
    requires ranged { IsRanged step }
    ensures stepped { IsStepped state.old state.new (or_zero known) step }
    ensures epoch { result ≡ the_epoch step (word_in state.old (target_word step)) known }
{
    let word = target(step);
    let answer = state.word(word);
    state.set_word(word, new_value(known.unwrap_or(0), step, answer));
    epoch_after(step, answer, known)
}

/// The state after these steps of these actors, in this order, from a state that nobody used yet. They must be the steps of a legal
/// list. One load and one store a step.
pub fn run_steps(state: State, list: &[(u8, Step)]) -> State
    requires opening { IsOpening state }
    requires legal { CanRun (profile_of state) list.now }
    ensures profile { profile_of result ≡ profile_of state }
    ensures words { IsAfter (profile_of state) list.now result }
{
    let mut state = state;
    let mut epochs = [None; MOST_ACTORS];
    for &(actor, step) in list {
        let actor = actor as usize;
        epochs[actor] = make(&mut state, epochs[actor], step);
    }
    state
}
