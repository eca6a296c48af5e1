//! Steps that any view allows, made over and over.
ghost use Rattle.std.specs.Prelude.{◌≡◌, ◌≤◌};
ghost use Rattle.pas_profile.specs.declared.profile.Profile.{Profile};
ghost use Rattle.pas_steps.specs.Desks.{AnyView, CanCall};
ghost use Rattle.pas_timing.specs.Repeats.{IsFreeToMake};

use pas_profile::Word;
use pas_steps::{Desk, Step};

/// The pages over which the steps go, from 1 on.
pub const PAGES: u32 = 64;

/// Which steps are made.
#[derive(Clone, Copy, Drop)]
pub enum Kind {
    /// Looks at a free word: a load.
    Look,
    /// Hints: an atomic or.
    Hint,
    /// Unhints: an atomic and.
    Unhint,
    /// Ticks, each later than the one before: an atomic maximum.
    Tick,
}

/// The step of this round.
#[inline(always)]
fn step_of(kind: Kind, round: u64) -> Step
    ensures { (f : Profile) → 64 ≤ f.pages → IsFreeToMake f result }
{
    let page = 1 + (round % 64) as u32;
    match kind {
        Kind::Look => Step::Look {
            word: Word::Free(page, 0),
        },
        Kind::Hint => Step::Hint { page },
        Kind::Unhint => Step::Unhint { page },
        Kind::Tick => Step::Tick {
            epoch: round % (1 << 32),
        },
    }
}

/// Makes so many steps of the kind, and adds up their answers.
#[inline(always)]
pub fn repeat<D: Desk>(desk: &mut D, kind: Kind, rounds: u64) -> u64
    requires pages { 64 ≤ (D.standing desk.old).seat.profile.pages }
    requires can { CanCall (D.standing desk.old) AnyView }
    ensures seat { (D.standing desk.new).seat ≡ (D.standing desk.old).seat }
    ensures can { CanCall (D.standing desk.new) AnyView }
    ensures home { D.home desk.new ≡ D.home desk.old }
{
    let mut sum = 0u64;
    for round in 0..rounds {
        sum = sum.wrapping_add(desk.make(step_of(kind, round)));
    }
    sum
}
