//! A pass of a scavenger at a page that another actor left or has in hand.
ghost use Rattle.std.specs.Prelude.{◌^◌, ◌<◌};

use crate::seating::plain_profile;
use pas_plain::beside;
use pas_profile::*;
use pas_steps::Desk;
use pas_trials::{age_and_pass, change, close_both, fill};
use pas_utility::Utility;
use std::alloc::Global;
use std::test::Fail;

/// Actor 1 refills a class from page 1, and stops the slots where that is asked. Then actor 2 hints the page, raises the epoch and makes a
/// pass. The first outcome of the pass, and the page's backed word after it.
fn refill_and_pass(
    alloc: Global,
    stops: bool,
    epoch: u64,
) -> Result<(Option<(u32, Outcome)>, u64), Fail>
    requires { epoch < 2 ^ 40 }
{
    let (mut desk, pass) = beside(alloc, plain_profile(1), 2)?;
    let _ = fill(&mut desk, 0, 0, stops);
    let (mut desk, pass) = change(desk, pass);
    let mut utility = Utility::try_new(alloc, desk.profile(), &[0, 0, 0])?;
    let Some(mut outcomes) = utility.outcomes() else {
        return Err(NoMemory.into());
    };
    age_and_pass(&mut desk, 1, epoch, &mut outcomes);
    let state = close_both(alloc, desk, pass)?;
    let first = outcomes.as_slice().first().copied();
    Ok((first, state.word(Word::Backed(1))))
}

/// Whether the outcome is this one, of page 1.
fn is_of_first(found: Option<(u32, Outcome)>, outcome: Outcome) -> bool {
    found == Some((1, outcome))
}

#[test]
fn an_old_empty_page_is_unbacked(rt: HostRuntime) -> Result<(), Fail> {
    let (outcome, backed) = refill_and_pass(rt.alloc(), true, 2)?;
    assert!(rt; is_of_first(outcome, Outcome::Unbacked) && backed == 0);
    Ok(())
}

#[test]
fn a_young_page_stays_backed(rt: HostRuntime) -> Result<(), Fail> {
    let (outcome, backed) = refill_and_pass(rt.alloc(), true, 1)?;
    assert!(rt; is_of_first(outcome, Outcome::Young(0)) && backed == 1);
    Ok(())
}

#[test]
fn a_page_in_use_stays_backed(rt: HostRuntime) -> Result<(), Fail> {
    let (outcome, backed) = refill_and_pass(rt.alloc(), false, 2)?;
    assert!(rt; is_of_first(outcome, Outcome::InUse(0, 0)) && backed == 1);
    Ok(())
}
