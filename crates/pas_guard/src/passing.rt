//! Guards whose blocks live are passed by at a desk that tells the whole state: looks at their life words are told to it and not made.
ghost use Rattle.std.specs.Prelude.{ℕ, ◌≡◌, ◌≤◌, ◌<◌, ◌/◌, Bool, false, IsTrue, length, slice_index_or};
ghost use Rattle.pas_profile.specs.{Profiles.IsPage, Blocks.address_of};
ghost use Rattle.pas_steps.specs.Desks.{AnyView, CanCall};
ghost use Rattle.pas_guard.specs.{Sweeps.{is_over, life_word_of}, Passing.{AreOfRegion, KnowsAliveOnes, PassesAlive}};

use pas_profile::limits::{GRAIN_BYTES, PAGE_BYTES};
use pas_profile::{Guard, Word, read_life};
use pas_steps::Desk;

/// The life word of the block's first grain.
pub(crate) fn life_word(guard: Guard) -> Word
    ensures { result ≡ life_word_of guard }
{
    let address = guard.block.name.address.0;
    Word::Life(
        address / PAGE_BYTES,
        (address % PAGE_BYTES / GRAIN_BYTES) as u8,
    )
}

/// Whether the block has ended, by this value of its life word.
pub(crate) fn has_ended(guard: Guard, word: u64) -> bool
    ensures { result ≡ is_over guard word }
{
    let (turn, _, _) = read_life(word);
    guard.block.name.turn < turn
}

/// The place of the first guard from this one on whose block isn't known to live, and their number where each one's is. `from` where the desk doesn't
/// tell its words. No step is made.
fn first_not_alive<D: Desk>(desk: &D, guards: &[Guard], from: usize) -> usize
    requires region { AreOfRegion (D.standing desk.now) guards.now }
    requires from { from ≤ length guards.now }
    ensures { KnowsAliveOnes D.tells (D.standing desk.now) guards.now from result }
{
    for place in from..guards.len() {
        let guard = guards[place];
        let Some(word) = desk.peek(life_word(guard)) else {
            return from;
        };
        if has_ended(guard, word) {
            return place;
        }
    }
    guards.len()
}

/// Passes guards by from this place on, up to one whose block may have ended: looks at the life words of the others are told to the desk. The place up to
/// which guards were passed by: `from` where none was, as where all are to go.
pub(crate) fn pass_alive<D: Desk>(desk: &mut D, guards: &[Guard], from: usize, all: bool) -> usize
    requires region { AreOfRegion (D.standing desk.old) guards.now }
    requires from { from ≤ length guards.now }
    requires can { CanCall (D.standing desk.old) AnyView }
    ensures passes { PassesAlive all guards.now from (D.standing desk.old) (D.standing desk.new) result }
    ensures home { D.home desk.new ≡ D.home desk.old }
{
    if all {
        return from;
    }
    let place = first_not_alive(desk, guards, from);
    if place == from {
        return from;
    }
    if !desk.tell((place - from) as u64) {
        return from;
    }
    place
}
