//! Two threads that refill one class at a shared region of one page at once.
ghost use Rattle.std.specs.Prelude.{◌≡◌};
ghost use Rattle.pas_steps.specs.States.{profile_of as the_profile_of};

use crate::shared_seating::opened_for_two;
use pas_bits::Mask4;
use pas_profile::*;
use pas_segregated::Slots;
use pas_shared::{close, into_passes};
use pas_steps::State;
use pas_trials::{race, workers_of};
use std::test::Fail;

/// The free words of page 1, its deed word and its backed word.
fn values(state: &State) -> [u64; 6]
    requires { (the_profile_of state.now).pages ≡ 1 }
{
    [
        state.word(Word::Free(1, 0)),
        state.word(Word::Free(1, 1)),
        state.word(Word::Free(1, 2)),
        state.word(Word::Free(1, 3)),
        state.word(Word::Deed(1)),
        state.word(Word::Backed(1)),
    ]
}

/// Whether the answer is all slots of page 1.
fn has_all(answer: &Option<Result<Slots, NoRoom>>) -> bool {
    let slots = Slots {
        page: 1,
        heap: 0,
        class: 0,
        starts: Mask4([u64::MAX; 4]),
        right: true,
    };
    *answer == Some(Ok(slots))
}

/// Whether the answer names page 1 as held.
fn is_held(answer: &Option<Result<Slots, NoRoom>>) -> bool {
    *answer == Some(Err(NoRoom::Held(1)))
}

/// Whether there are two answers, of which one has all slots of page 1, and the other one names the page as held.
fn one_has_all(answers: &[Option<Result<Slots, NoRoom>>]) -> bool {
    if answers.len() != 2 {
        return false;
    }
    (has_all(&answers[0]) && is_held(&answers[1])) || (has_all(&answers[1]) && is_held(&answers[0]))
}

#[test]
fn one_of_two_threads_gets_the_page(rt: HostRuntime) -> Result<(), Fail> {
    let (region, first, second) = opened_for_two(rt.alloc(), 1, 2)?;
    let passes = vec![in rt.alloc(); first, second]?;
    let mut workers = workers_of(rt.alloc(), &region, passes)?;
    race(&rt, &region, &mut workers);
    let (passes, answers) = into_passes(rt.alloc(), &region, workers)?;
    assert!(rt; one_has_all(&answers));
    let state = close(region, passes);
    assert!(rt; values(&state) == [0, 0, 0, 0, 65536, 1]);
    Ok(())
}
